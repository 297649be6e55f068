// The key under which a queued event is found.
ghost use Rattle.std.specs.Prelude.{◌≡◌};
ghost use Rattle.std.specs.Option.{ForSome};
ghost use Rattle.fan_queue.specs.Keys.{key_of};

use super::entry::{Body, Entry};
use fan_event::key_hash;

/// The key of an entry that may take bits.
#[derive(Clone, Copy, Debug, PartialEq, Eq, PartialOrd, Ord)]
pub(crate) struct EntryKey {
    /// The hash of its event's key.
    pub(crate) hash: u64,
    /// Its number.
    pub(crate) number: u64,
}

// The key of an entry; none if it never takes bits. It hashes its event.
pub(crate) fn key_of(entry: &Entry) -> Option<EntryKey>
    ensures key { result ≡ key_of entry.now }
    ensures number { ForSome result (λ key. key.number ≡ entry.now.number) }
{
    match &entry.body {
        Body::Told(event) if !event.perm => Some(EntryKey {
            hash: key_hash(event),
            number: entry.number,
        }),
        _ => None,
    }
}
