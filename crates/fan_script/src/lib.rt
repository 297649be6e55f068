//! Lines of a script: what each asks for, what is answered to it, and how it is read.
#![tactic(auto)]

mod accesses;
mod fields;
mod forms;
mod groups;
mod laws;
mod line;
mod ops;
mod outcomes;
mod reply;
mod step;
mod tree;
mod words;

pub use fan_bits::StepOutcome;
pub use laws::{at_most_one_line, finds_the_line};
pub use line::{Line, LineRefused, read_line};
pub use outcomes::Outcomes;
pub use reply::Reply;
pub use step::{OpWord, Step};
