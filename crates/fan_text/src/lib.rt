//! Words of a line: numbers, names, paths and bytes, each read on its one spelling.
#![tactic(auto)]

mod bytes;
mod decimal;
mod hex;
mod laws;
mod names;
mod numerals;

pub use bytes::{read_bytes, write_bytes};
pub use decimal::read_decimal;
pub use hex::read_hex;
pub use laws::{bytes_are_read_again, one_spelling_each};
pub use names::{read_name, read_path};
