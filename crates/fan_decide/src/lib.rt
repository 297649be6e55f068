//! Which groups want what of a happening, one after another in the order of asks and tells.
//!
//! ```rust
//! let mut after = Order::START;
//! while let Some(interest) = next_interest(&mut connectors, &happening, after) {
//!     ask(interest.group, interest.bits);
//!     after = interest.order();
//! }
//! ```
#![tactic(auto)]

mod interest;
#[cfg(test)]
mod tests;
mod words;

pub use interest::next_interest;
