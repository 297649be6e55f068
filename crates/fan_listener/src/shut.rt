// What is left of a listener once it is closed and its verdicts were taken.
use fan_bits::InitWords;

/// The flags and the limit with which it was made, and how far its numbers went.
#[derive(Clone, Copy, Debug)]
pub(crate) struct Shut {
    /// Its flags.
    pub(crate) init: InitWords,
    /// How many entries filled its queue.
    pub(crate) limit: u32,
    /// The number after that of its last entry.
    pub(crate) next_entry: u64,
    /// How many descriptors it gave out.
    pub(crate) next_fd: u32,
}
