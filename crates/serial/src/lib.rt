// Numbers that wrap: TSNs of 32 bits, SSNs of 16. Each call stands in a crate of its kind, and is handed on here; what they answer is stated once over the
// width, in serial_model/specs/Serial.antt.
#![tactic(auto)]

pub use serial_compare::{ssn_compare, tsn_compare};
pub use serial_distance::{ssn_distance, tsn_distance};
pub use serial_model::Order;
pub use serial_ssns::{sna16lt, sna16lte};
pub use serial_ssns_after::{sna16eq, sna16gt, sna16gte};
pub use serial_steps::{ssn_next, ssn_offset, tsn_next, tsn_offset};
pub use serial_tsns::{sna32lt, sna32lte};
pub use serial_tsns_after::{sna32eq, sna32gt, sna32gte};
