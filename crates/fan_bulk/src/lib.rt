//! The script of `bulk`, as docs/FORMATS.md states it, and what is counted in the replies to it.
//!
//! ```
//! let mut summary = Summary::new();
//! for line in &opening(alloc)? {
//!     summary.count_line();
//!     summary.count(&play(line)?);
//! }
//! let mut rounds = Rounds::new(seed);
//! for _ in 0..count {
//!     for line in &rounds.next_lines(alloc)? {
//!         summary.count_line();
//!         summary.count(&play(line)?); // each reply, where the line is `run`
//!     }
//! }
//! summary.write(&mut text)?;
//! ```
#![tactic(auto)]

mod generator;
mod laws;
mod lines;
mod rounds;
mod start;
mod summary;

pub use generator::Generator;
pub use laws::{script_is_of_lines, summaries_add_up};
pub use rounds::Rounds;
pub use start::opening;
pub use summary::Summary;
