//! The outside of fanwatch: sources and sinks of bytes that may fail, and want of memory.
#![tactic(auto)]

mod faults;
mod items;
mod mem_sink;
mod mem_source;
mod sink;
mod source;
mod std_sink;
mod std_source;

pub use faults::{Failed, NoMemory};
pub use items::Items;
pub use mem_sink::MemSink;
pub use mem_source::MemSource;
pub use sink::{Sink, put_all};
pub use source::{Source, TakeRefused, take_all};
pub use std_sink::{StdSink, Writer};
pub use std_source::{Reader, StdSource};

#[cfg(test)]
mod tests;
