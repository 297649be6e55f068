// What an access does.
ghost use Rattle.std.specs.Prelude.{◌≡◌};
ghost use Rattle.fan_access.specs.Operations.{asked_events, told_events};

use crate::report::Report;
use fan_bits::{
    FAN_ACCESS, FAN_ACCESS_PERM, FAN_ATTRIB, FAN_CLOSE_NOWRITE, FAN_CLOSE_WRITE, FAN_CREATE,
    FAN_DELETE, FAN_DELETE_SELF, FAN_MODIFY, FAN_MOVE_SELF, FAN_MOVED_FROM, FAN_MOVED_TO, FAN_OPEN,
    FAN_OPEN_EXEC, FAN_OPEN_EXEC_PERM, FAN_OPEN_PERM,
};

/// The operation of an access. Each has its spots, in the order of what it tells of; groups are
/// asked at the first one.
#[derive(Clone, Copy, Debug, PartialEq, Eq)]
pub enum Op {
    /// Opens a file or a directory: FAN_OPEN_PERM is asked for, then FAN_OPEN is told: open(2).
    Opens,
    /// Opens a file to execute it: FAN_OPEN_EXEC_PERM and then FAN_OPEN_PERM are asked for, then
    /// FAN_OPEN and FAN_OPEN_EXEC are told in one: execve(2).
    Execs,
    /// Reads a file or lists a directory: FAN_ACCESS_PERM is asked for, then FAN_ACCESS is told:
    /// read(2), readdir(3).
    Reads,
    /// Writes to a file: FAN_MODIFY is told: write(2).
    Writes,
    /// Closes a file that was open for writing: FAN_CLOSE_WRITE is told: close(2).
    ClosesWrite,
    /// Closes a file or a directory that was open for reading: FAN_CLOSE_NOWRITE is told: close(2).
    ClosesRead,
    /// Changes the attributes of a file or a directory: FAN_ATTRIB is told: chmod(2).
    Attribs,
    /// Makes a file: FAN_CREATE is told of the directory: mknod(2).
    Creates,
    /// Makes a directory: FAN_CREATE is told of the directory that it is in: mkdir(2).
    MakesDir,
    /// Removes a file: FAN_DELETE is told of its directory, then FAN_DELETE_SELF of the file:
    /// unlink(2).
    Unlinks,
    /// Removes a directory: FAN_DELETE is told of the one that it was in, then FAN_DELETE_SELF of
    /// the directory: rmdir(2).
    RemovesDir,
    /// Renames a file or a directory: FAN_MOVED_FROM is told of the old directory, FAN_MOVED_TO of
    /// the new one, and then FAN_MOVE_SELF of what was renamed, at its new place: rename(2).
    Renames,
}

impl Op {
    /// The permission events that it asks for, a round each.
    pub fn asked_events(self) -> &'static [u32]
        ensures { result.now ≡ asked_events self }
    {
        match self {
            Op::Opens => &[FAN_OPEN_PERM],
            Op::Execs => &[FAN_OPEN_EXEC_PERM, FAN_OPEN_PERM],
            Op::Reads => &[FAN_ACCESS_PERM],
            _ => &[],
        }
    }

    /// What it tells of, a round each.
    pub fn told_events(self) -> &'static [Report]
        ensures { result.now ≡ told_events self }
    {
        match self {
            Op::Opens => &[Report::Itself(FAN_OPEN)],
            Op::Execs => &[Report::Itself(FAN_OPEN | FAN_OPEN_EXEC)],
            Op::Reads => &[Report::Itself(FAN_ACCESS)],
            Op::Writes => &[Report::Itself(FAN_MODIFY)],
            Op::ClosesWrite => &[Report::Itself(FAN_CLOSE_WRITE)],
            Op::ClosesRead => &[Report::Itself(FAN_CLOSE_NOWRITE)],
            Op::Attribs => &[Report::Itself(FAN_ATTRIB)],
            Op::Creates | Op::MakesDir => &[Report::OfEntry(FAN_CREATE)],
            Op::Unlinks | Op::RemovesDir => &[
                Report::OfEntry(FAN_DELETE),
                Report::Itself(FAN_DELETE_SELF),
            ],
            Op::Renames => &[
                Report::OfEntry(FAN_MOVED_FROM),
                Report::OfEntry(FAN_MOVED_TO),
                Report::Itself(FAN_MOVE_SELF),
            ],
        }
    }
}
