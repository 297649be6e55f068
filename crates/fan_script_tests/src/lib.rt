//! Tests of scripts: numbers and names, lines, the rounds of `bulk`, and whole commands.
//!
//! They stand apart from the crates that they test, since a crate with tests is proved twice.
#![tactic(auto)]

#[cfg(test)]
mod commands;
#[cfg(test)]
mod lines;
#[cfg(test)]
mod rounds;
#[cfg(test)]
mod spellings;
