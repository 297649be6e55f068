//! The book of all marks: what each group asks for on each object.
#![tactic(auto)]

mod book;
mod clear;
mod drops;
mod keys;
mod put;
mod refused;
mod selection;
mod stored;
#[cfg(test)]
mod tests;

pub use book::MarkBook;
pub use refused::MarkRefused;
