// Why the book refuses a change.
ghost use Rattle.std.specs.Prelude.{◌≡◌, ◌⊎◌, Some};
ghost use Rattle.fan_marks.specs.Book.{IsErrno};

use super::put::MAX_MARKS;
use fan_bits::Errno;
use fan_io::NoMemory;

/// Why a change was refused. Nothing changed.
#[derive(Clone, Copy, Debug, PartialEq, Eq)]
pub enum MarkRefused {
    /// Bits were to be taken from a mark that isn't there: ENOENT of fanotify_mark(2).
    NoMark,
    /// A new mark would be one too many for its group: ENOSPC of fanotify_mark(2).
    Limit {
        /// How many marks the group may have: 8,192.
        marks: u32,
    },
    /// No memory was found for a new mark.
    NoMemory,
}

impl MarkRefused {
    /// The refusal for an errno of fanotify_mark(2).
    pub(crate) fn of(errno: Errno) -> MarkRefused
        requires { (errno ≡ Errno.Enoent) ⊎ (errno ≡ Errno.Enospc) }
        ensures { IsErrno result errno }
    {
        match errno {
            Errno::Enoent => MarkRefused::NoMark,
            Errno::Enospc => MarkRefused::Limit { marks: MAX_MARKS },
            _ => unreachable!(),
        }
    }
}

impl From<NoMemory> for MarkRefused {
    ghost use Rattle.std.specs.Prelude.{◌≡◌};
    ghost use Rattle.fan_marks.specs.declared.refused.MarkRefused.TheVariants.{NoMemory};

    ghost from_gives = { λ _ e. e ≡ NoMemory };

    fn from(_: NoMemory) -> MarkRefused {
        MarkRefused::NoMemory
    }
}
