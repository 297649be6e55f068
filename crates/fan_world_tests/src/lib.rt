//! Tests of the machine and of the keepers of its marks: the book of all marks beside the table
//! with sections, and the machine over sections of another sort.
//!
//! They stand apart from the crates that they test, since a crate with tests is proved twice.
#![tactic(auto)]

#[cfg(test)]
mod another_list;
#[cfg(test)]
mod both;
#[cfg(test)]
mod histories;
#[cfg(test)]
mod spelled;
