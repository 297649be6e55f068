//! The commands of fanwatch: what each answers to its input, and the status that it ends with.
#![tactic(auto)]

mod bulk;
mod command;
mod dump;
mod laws;
mod plain;
mod run;
mod script;
mod status;

pub use command::Command;
pub use laws::{
    exactly_one_transcript, lines_are_a_script, one_outcome_at_most, transcripts_follow_the_steps,
};
pub use plain::run_plain;
pub use status::Status;
