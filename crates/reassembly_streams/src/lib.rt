// Fragments to messages, for eight streams that share one table and one pool: the public calls. Each stands in a crate of its kind, and is handed on
// here; what they answer is said in streams_model/specs.
#![tactic(auto)]

pub use streams_forward::forward_tsn_for_ordered;
pub use streams_forward_bounded::forward_tsn_for_ordered_bounded;
pub use streams_forward_unordered::forward_tsn_for_unordered;
pub use streams_fresh::new;
pub use streams_look::{applicable_forward_tsn_for_ordered_bounded, get_num_bytes};
pub use streams_model::Streams;
pub use streams_push::push;
pub use streams_readable::is_readable;
pub use streams_take::read;
