//! One access: whom it asks and tells, and its single step, over any marks and any listeners.
//!
//! An access first asks the groups that want a permission event, one after the other, and then
//! tells those that want an event. Each step gets the marks by which it goes, and finds the next
//! group by them:
//!
//! ```
//! let spots = vec![in alloc; Spot { place, name }]?;
//! let mut access = Access::new(Op::Opens, spots, 41, 41);
//! assert_eq!(access.step(&mut marks, &mut groups)?, StepOutcome::Asked(1));
//! assert_eq!(access.step(&mut marks, &mut groups)?, StepOutcome::Blocked(1));
//! groups.write(1, &[0, 0, 0, 0, 1, 0, 0, 0])?;
//! assert_eq!(access.step(&mut marks, &mut groups)?, StepOutcome::Allowed(1));
//! assert_eq!(access.step(&mut marks, &mut groups)?, StepOutcome::Queued(1));
//! assert_eq!(access.step(&mut marks, &mut groups)?, StepOutcome::Done);
//! ```
#![tactic(auto)]

mod access;
mod listeners;
mod op;
mod outcome;
mod phase;
mod report;
mod rounds;
mod spot;
#[cfg(test)]
mod test_groups;
#[cfg(test)]
mod tests;
mod turn;

pub use access::Access;
pub use fan_bits::StepOutcome;
pub use listeners::Listeners;
pub use op::Op;
pub use phase::{Cursor, Phase};
pub use report::Report;
pub use spot::Spot;
