// Answers to permission events, and why a read or a response is refused: fanotify(7).
ghost use Rattle.std.specs.Prelude.{◌≡◌};
ghost use Rattle.fan_listener.specs.Responses.{answer_by};
ghost use Rattle.fan_listener.specs.Refusals.{read_errno, write_errno};

use fan_bits::Errno;
use fan_event::Event;

/// What a response says to a permission event: fanotify(7).
#[derive(Clone, Copy, Debug, PartialEq, Eq)]
pub enum Verdict {
    /// FAN_ALLOW: the access goes on.
    Allow,
    /// FAN_DENY: the access fails.
    Deny,
}

/// What has become of a permission event.
#[derive(Clone, Copy, Debug, PartialEq, Eq)]
pub enum Answer {
    /// It has no answer yet.
    Waiting,
    /// FAN_ALLOW was written.
    Allowed,
    /// FAN_DENY was written.
    Denied,
    /// The group was closed before an answer.
    Closed,
}

impl From<Verdict> for Answer {
    /// What FAN_ALLOW and FAN_DENY answer.
    fn from(verdict: Verdict) -> Answer
        ensures { result ≡ answer_by verdict }
    {
        match verdict {
            Verdict::Allow => Answer::Allowed,
            Verdict::Deny => Answer::Denied,
        }
    }
}

/// A response was taken.
#[derive(Clone, Copy, Debug, PartialEq, Eq)]
pub struct Answered {
    /// The number of the entry that it answers.
    pub entry: u64,
}

/// Why a read gave nothing: read(2) and fanotify(7).
#[derive(Clone, Copy, Debug, PartialEq, Eq)]
pub enum ReadRefused {
    /// The group is closed: EBADF.
    Closed,
    /// Nothing is queued: EAGAIN.
    Again,
    /// The first record is longer than the buffer: EINVAL.
    Small,
    /// No memory was found for the bytes. No error of the machine stands for it.
    NoMemory,
}

/// Why a response was not taken: write(2) and fanotify(7).
#[derive(Clone, Copy, Debug, PartialEq, Eq)]
pub enum WriteRefused {
    /// The group is closed: EBADF.
    Closed,
    /// The response doesn't have exactly 8 bytes: EINVAL.
    Length,
    /// The value is neither FAN_ALLOW nor FAN_DENY: EINVAL.
    Value,
    /// No event waits under that descriptor: ENOENT.
    NotPending,
}

impl ReadRefused {
    /// The error of read(2); want of memory has none.
    pub fn errno(self) -> Option<Errno>
        ensures { result ≡ read_errno self }
    {
        match self {
            ReadRefused::Closed => Some(Errno::Ebadf),
            ReadRefused::Again => Some(Errno::Eagain),
            ReadRefused::Small => Some(Errno::Einval),
            ReadRefused::NoMemory => None,
        }
    }
}

impl WriteRefused {
    /// The error of write(2).
    pub fn errno(self) -> Errno
        ensures { result ≡ write_errno self }
    {
        match self {
            WriteRefused::Closed => Errno::Ebadf,
            WriteRefused::Length | WriteRefused::Value => Errno::Einval,
            WriteRefused::NotPending => Errno::Enoent,
        }
    }
}

// A permission event that was read and waits for its answer.
#[derive(Drop)]
pub(crate) struct Pending {
    // Its descriptor.
    pub(crate) fd: u32,
    // The number of its entry.
    pub(crate) entry: u64,
    // The event itself.
    pub(crate) event: Event,
}
