//! The groups: the listener of each, and how many are open.
#![tactic(auto)]

mod groups;
mod listeners;

pub use groups::Groups;
