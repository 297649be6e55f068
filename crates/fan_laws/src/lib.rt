//! Laws of the machine, which hold whatever steps came before. They speak of its definitions alone:
//! no code stands here, and the bodies are empty.
#![tactic(auto)]

mod accesses;
mod reclaiming;
mod refusals;
mod runs;
mod trees;
mod worlds;

pub use accesses::{accesses_ask_then_tell, finished_accesses_stay_so, outcomes_have_causes};
pub use reclaiming::{marks_are_reclaimed_once, removals_take_their_marks};
pub use refusals::refused_steps_change_nothing;
pub use runs::every_run_ends;
pub use trees::trees_are_whole;
pub use worlds::worlds_are_whole;
