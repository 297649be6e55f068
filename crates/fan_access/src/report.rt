// What an operation tells of at one spot.

/// Events that an operation tells of at one spot, as bits of fanotify_mark(2).
#[derive(Clone, Copy, Debug, PartialEq, Eq)]
pub enum Report {
    /// Events of an object itself.
    Itself(u32),
    /// Events of an entry of a directory: they happen to the directory.
    OfEntry(u32),
}
