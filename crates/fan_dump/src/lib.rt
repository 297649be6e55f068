//! The lines that are printed for records of fanotify(7).
#![tactic(auto)]

mod dump;
mod event;
mod laws;
mod numbers;

pub use dump::{CutOff, write_dump};
pub use event::print_event;
pub use laws::one_dump_at_most;
