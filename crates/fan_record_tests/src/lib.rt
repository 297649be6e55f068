//! Tests of records: event records, their information records, and the lines that `dump` makes of both.
//!
//! They stand apart from the crates that they test, since a crate with tests is proved twice.
#![tactic(auto)]

#[cfg(test)]
mod dumps;
#[cfg(test)]
mod infos;
#[cfg(test)]
mod records;
