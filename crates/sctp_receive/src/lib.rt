// The C interface of the library: every public call of the codecs, of packets, the TSN queue, the in-flight queue, reassembly and the message in hand, and FORWARD TSN applied, as #[unsafe(no_mangle)] pub extern "C".
// Numbers, slices (a pointer and a length) and arrays (a pointer) only, so that include/sctp_receive.h holds on every processor. The result is -1 where
// nothing was refused, else document 01's number. Each promise equates result and exit values with the definitions that the call below it is promised by.
#![tactic(auto)]

pub mod bounded_calls;
pub mod cause_chunks;
pub mod data_chunk;
pub mod forward_tsn_chunk;
pub mod fragment_calls;
pub mod header;
pub mod inflight;
pub mod message;
pub mod order;
pub mod packets;
pub mod sack_chunk;
pub mod tsns;
pub mod tsns_seen;
