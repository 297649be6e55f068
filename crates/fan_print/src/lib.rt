//! The texts that the program prints: what is answered to a step of a script, and numbers.
#![tactic(auto)]

mod reply;
#[cfg(test)]
mod tests;
mod texts;

pub use reply::print_reply;
pub use texts::{print_decimal, print_text};
