//! Objects that were seen once, found at once.
//!
//! A [`Seen`] says of an object whether it was added. Most objects have no mark, and no mount stands on most
//! directories; whoever looks there asks a `Seen` first, and makes no search for the others:
//!
//! ```
//! let mut seen = Seen::new(alloc)?;
//! seen.add(4);
//! assert!(seen.has(4) && !seen.has(5));
//! ```
#![tactic(auto)]

mod seen;
#[cfg(test)]
mod tests;

pub use seen::Seen;
