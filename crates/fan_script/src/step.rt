// One step of the machine, as a line asks for it.
use fan_io::Items;

/// What an access does: the operation of a `begin` line.
#[derive(Clone, Copy, Debug, PartialEq, Eq)]
pub enum OpWord {
    /// `open`: opens a file or a directory.
    Opens,
    /// `exec`: opens a file to run it.
    Execs,
    /// `read`: reads a file, or lists a directory.
    Reads,
    /// `write`: writes to a file.
    Writes,
    /// `closew`: closes a file that was open for writing.
    ClosesWrite,
    /// `closer`: closes a file or a directory that was open for reading.
    ClosesRead,
    /// `attrib`: changes metadata.
    Attribs,
    /// `create`: makes a file.
    Creates,
    /// `mkdir`: makes a directory.
    MakesDir,
    /// `unlink`: removes a file.
    Unlinks,
    /// `rmdir`: removes an empty directory.
    RemovesDir,
    /// `rename`: moves a file or a directory to a second path.
    Renames,
}

/// One step of the machine. Paths are spelled as in docs/FORMATS.md, "Spellings".
#[derive(Debug, Drop)]
pub enum Step {
    /// Makes a regular file at a path, and tells no event.
    MkFile {
        path: Items<u8>,
    },
    /// Makes a directory at a path, and tells no event.
    MkDir {
        path: Items<u8>,
    },
    /// Makes a filesystem with its root directory.
    MkFs,
    /// Mounts a filesystem, from 1 to 65,535, on a directory.
    Mount {
        fs: u32,
        path: Items<u8>,
    },
    /// Removes the mount whose root a path reaches.
    Umount {
        path: Items<u8>,
    },
    /// Sets the limit of the queues of groups made later, from 1 to 16,384 entries.
    Limit {
        entries: u32,
    },
    /// Makes a group: fanotify_init(2).
    Init {
        flags: u32,
    },
    /// Changes the marks of a group: fanotify_mark(2).
    Mark {
        group: u32,
        flags: u32,
        mask: u64,
        path: Items<u8>,
    },
    /// Begins an access by a process and a thread of it; `rename` has a second path.
    Begin {
        access: u32,
        pid: u32,
        tid: u32,
        op: OpWord,
        path: Items<u8>,
        second: Option<Items<u8>>,
    },
    /// Does the next single step of an access: the line `step`. `run` repeats it.
    Advance {
        access: u32,
    },
    /// Reads the events of a group into a buffer of `size` bytes, 0 to 1,048,576: fanotify(7).
    Read {
        group: u32,
        size: u32,
    },
    /// Writes a response of a group's listener, of 1 to 64 bytes: fanotify(7).
    Write {
        group: u32,
        bytes: Items<u8>,
    },
    /// Closes a group: its queue is freed, and its marks go.
    Close {
        group: u32,
    },
    /// Counts the retired marks that no open access could hold.
    Grace,
}
