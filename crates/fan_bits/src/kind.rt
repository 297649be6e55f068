// What a mark is on, and what is done to it: fanotify_mark(2).

/// What a mark is on.
#[derive(Clone, Copy, Debug, PartialEq, Eq, PartialOrd, Ord)]
pub enum Kind {
    /// A file or a directory.
    Inode,
    /// FAN_MARK_MOUNT: a mount.
    Mount,
    /// FAN_MARK_FILESYSTEM: a filesystem, through whichever mount it is reached.
    Filesystem,
}

/// What is done to the marks of a group.
#[derive(Clone, Copy, Debug, PartialEq, Eq)]
pub enum Verb {
    /// FAN_MARK_ADD: bits are added to a mark.
    Add,
    /// FAN_MARK_REMOVE: bits are removed from a mark.
    Remove,
    /// FAN_MARK_FLUSH: all marks on objects of a kind are removed.
    Flush,
}
