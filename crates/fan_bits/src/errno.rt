// The names of the errors with which a step is refused: errno(3).

/// Why a step was refused, as in fanotify_init(2), fanotify_mark(2), open(2) and rename(2).
#[derive(Clone, Copy, Debug, PartialEq, Eq)]
pub enum Errno {
    /// No such group is open.
    Ebadf,
    /// A flag, a mask, a size or a response is invalid.
    Einval,
    /// There is no such file, filesystem or mark, or no event waits under that descriptor.
    Enoent,
    /// It is not a directory, where one is needed.
    Enotdir,
    /// It is a directory, where a file is needed.
    Eisdir,
    /// The name or the number is taken.
    Eexist,
    /// The directory is not empty.
    Enotempty,
    /// A mount or an open access uses it.
    Ebusy,
    /// The two paths are on different mounts.
    Exdev,
    /// No number for an object is left, or the group has as many marks as it may have.
    Enospc,
    /// Too many groups are open.
    Emfile,
    /// Nothing is queued.
    Eagain,
    /// No such access is open.
    Esrch,
    /// A directory cannot be executed.
    Eacces,
}
