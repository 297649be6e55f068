//! The words and bits of fanotify, marks and what groups want by them, and the names of refusals.
//!
//! A group is made with flags, and its marks are changed by calls with flags and a mask:
//!
//! ```rust
//! let init = init_words(0x4)?; // FAN_CLASS_CONTENT
//! let words = mark_words(0x1, u64::from(FAN_OPEN_PERM), init)?; // FAN_MARK_ADD
//! let change = Change::Put { group: 1, class: init.class(), words, object: 4 };
//! let mark = updated(None, &change); // the new mark of the group on the object
//! ```
//!
//! What a change makes of all marks, and which groups want what of a happening, is defined in
//! `specs/`; `laws` says what holds of it.
#![tactic(auto)]

mod bits;
mod change;
mod class;
mod connectors;
mod errno;
mod flags;
mod init;
mod kind;
mod laws;
mod mark;
mod mark_call;
mod mark_flags;
#[cfg(test)]
mod mark_tests;
mod mask;
mod outcome;
mod place;
#[cfg(test)]
mod tests;

pub use bits::{
    CHILD_EVENTS, FAN_ACCESS, FAN_ACCESS_PERM, FAN_ATTRIB, FAN_CLOSE_NOWRITE, FAN_CLOSE_WRITE,
    FAN_CREATE, FAN_DELETE, FAN_DELETE_SELF, FAN_EVENT_ON_CHILD, FAN_MODIFY, FAN_MOVE_SELF,
    FAN_MOVED_FROM, FAN_MOVED_TO, FAN_ONDIR, FAN_OPEN, FAN_OPEN_EXEC, FAN_OPEN_EXEC_PERM,
    FAN_OPEN_PERM, FAN_Q_OVERFLOW, FAN_REPORT_DIR_FID, FAN_REPORT_FID, FAN_REPORT_NAME,
};
pub use change::{Change, Changed, updated};
pub use class::Class;
pub use connectors::Connectors;
pub use errno::Errno;
pub use init::{InitWords, init_words};
pub use kind::{Kind, Verb};
pub use laws::{
    a_change_goes_by_objects, a_list_stays_a_list, a_mark_stays_where_it_is, bits_are_numbered,
    interests_are_in_order, marks_elsewhere_do_not_matter,
};
pub use mark::{Mark, Order};
pub use mark_call::{MarkWords, mark_words};
pub use mask::has_self_event;
pub use outcome::StepOutcome;
pub use place::{Happening, Interest, Place};
