//! Texts gathered on their way to a sink, and put in blocks that grow.
#![tactic(auto)]

mod blocks;
#[cfg(test)]
mod tests;

pub use blocks::Blocks;
