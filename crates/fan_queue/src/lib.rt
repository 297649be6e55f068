//! The queue of a group: fanotify(7).
//!
//! An event that is put is merged into a queued event with its key, or queued last; at the limit the lost
//! entry, FAN_Q_OVERFLOW, stands for it. Entries leave the queue from the front:
//!
//! ```
//! let mut queue = Queue::new(alloc, Some(2));
//! let put = queue.put(opened)?; // Queued { entry: 1 }
//! let put = queue.put(written)?; // Merged { entry: 1 }, if both have the same key
//! let entry = queue.take(); // The event with the bits of both.
//! ```
#![tactic(auto)]

mod cells;
mod entry;
mod keys;
pub mod laws;
mod queue;
mod table;
mod taker;
#[cfg(test)]
mod tests;

pub use entry::{Body, Entry, Put};
pub use queue::Queue;
