//! The records of fanotify(7), both ways: written at the end of a text, and read as parts of it.
//!
//! ```
//! let mut records = Records::new(bytes);
//! while let Some(answer) = records.next() {
//!     match answer {
//!         Ok(record) => show(record.mask, record.infos),
//!         Err(bad) => return Err(bad), // No record stands at `bad.at`.
//!     }
//! }
//! ```
#![tactic(auto)]

mod fields;
mod infos;
mod laws;
mod parts;
mod records;
mod write;

pub use infos::{handle_end, info_len};
pub use laws::{one_reading_of_records, one_record_at_most, records_are_read_again};
pub use parts::{BadRecord, Record};
pub use records::Records;
pub use write::write_record;
