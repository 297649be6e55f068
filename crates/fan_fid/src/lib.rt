//! The information records behind a record of fanotify(7), both ways: which file or directory an event
//! is of, told by file handles and a name.
//!
//! ```
//! let mut infos = Infos::new(record.infos);
//! while let Some(answer) = infos.next() {
//!     if let Info::DfidName(dir, name) = answer? {
//!         show(dir.handle, name);
//!     }
//! }
//! ```
#![tactic(auto)]

mod info;
mod infos;
mod laws;
mod parts;
mod write;

pub use info::{Ident, Info};
pub use infos::Infos;
pub use laws::{
    events_are_read_again, infos_are_read_again, infos_fill_a_record, one_info_at_most,
    one_reading_of_infos,
};
pub use write::{infos_len, write_infos};
