//! The listener of one group: its queue, its reads, and the answers to its permission events.
//!
//! An event is put on the queue, read as a record with a descriptor, and answered under this
//! descriptor. In a group that gets handles the record has information records in place of a
//! descriptor, and no response can name it.
//!
//! ```
//! let content = init_words(0x4)?; // FAN_CLASS_CONTENT
//! let mut listener = Listener::new(alloc, content, 16_384)?;
//! let event = event_for(alloc, content, &happening, b"a", FAN_OPEN_PERM, 41, 41, true)?;
//! let put = listener.ask(event)?;
//! let record = listener.read(4096)?;
//! let answered = listener.write(&[0, 0, 0, 0, 1, 0, 0, 0])?; // descriptor 0, FAN_ALLOW
//! let entry = answered.entry;
//! assert_eq!(record.len(), 24);
//! assert_eq!(put, Put::Queued { entry });
//! assert_eq!(listener.answer_of(entry), Answer::Allowed);
//! ```
#![tactic(auto)]

mod answers;
mod asked;
mod kept;
mod listener;
mod records;
mod responses;
mod rooms;
mod shut;
#[cfg(test)]
mod tests;

pub use answers::{Answer, Answered, ReadRefused, Verdict, WriteRefused};
pub use fan_event::{Event, Notice, Target, event_for, notice_for};
pub use fan_queue::{Body, Entry, Put};
pub use listener::Listener;
