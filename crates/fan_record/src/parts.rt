// A record as it is read, and the refusal of a reader.

/// A record. Source: fanotify(7), `struct fanotify_event_metadata`.
#[derive(Clone, Copy, Debug, PartialEq, Eq)]
pub struct Record<'a> {
    /// The bits of the event: FAN_OPEN and the like.
    pub mask: u64,
    /// The descriptor, or a negative number such as FAN_NOFD.
    pub fd: i32,
    /// The process, or the thread in a group with FAN_REPORT_TID; 0 for none.
    pub pid: i32,
    /// The information records behind it: a part of the input.
    pub infos: &'a [u8],
}

/// What a reader expected doesn't stand at this place, counted in bytes from the start of its input.
#[derive(Clone, Copy, Debug, PartialEq, Eq)]
pub struct BadRecord {
    /// The place of the first byte of what is bad.
    pub at: usize,
}
