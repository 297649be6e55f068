//! Events of fanotify(7) as a group gets them: their objects, their names, and which of them are merged.
//!
//! Two events are merged if they have the same key: the same process or thread, the same directory bit
//! and the same object. [`key_hash`] gives such events the same number, by which a queue finds them:
//!
//! ```
//! let opened = event_for(alloc, init, &happening, b"a", FAN_OPEN, 41, 41, false)?;
//! let written = event_for(alloc, init, &happening, b"a", FAN_MODIFY, 41, 41, false)?;
//! if same_key(&opened, &written) {
//!     opened.take_bits(written.bits); // One event tells of both.
//! }
//! ```
#![tactic(auto)]

mod event;
mod key;
pub mod laws;
mod name;
mod name_bytes;
mod notice;
mod reported;
mod target;
mod target_ref;
#[cfg(test)]
mod tests;

pub use event::{Event, event_for};
pub use key::{key_hash, same_key};
pub use name::{Name, is_name};
pub use notice::{Notice, notice_for};
pub use target::Target;
