//! Laws of events: what becomes of each ask and each tell, of the entries of a queue, and of their
//! records. They speak of the machine's definitions alone: no code stands here, and the bodies are
//! empty.
#![tactic(auto)]

mod entries;
mod fates;
mod listeners;
mod records;

pub use entries::entries_leave_once;
pub use fates::every_event_has_one_fate;
pub use listeners::{listeners_change_by_calls, listeners_keep_their_limits};
pub use records::records_have_the_bits_told;
