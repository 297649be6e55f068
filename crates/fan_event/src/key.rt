// Which events are merged, and a hash that is the same for them.
ghost use Rattle.std.specs.Prelude.{◌≡◌, ◌+◌, ◌*◌, ◌%◌, ◌<◌, ◌^◌};
ghost use Rattle.fan_event.specs.Keys.{key_hash, name_hash, optional_name_hash, same_key, same_name, same_target, who_number};
ghost use Rattle.fan_event.specs.Notices.{target_seen};

use super::event::Event;
use super::name::{Name, NameRef};
use super::notice::Notice;
use super::target::Target;
use super::target_ref::TargetRef;

// FNV-1a with 64 bits.
const FNV_BASIS: u64 = 14_695_981_039_346_656_037;

const FNV_PRIME: u64 = 1_099_511_628_211;

/// Whether the two have the same key: the same process or thread, directory bit and object.
pub fn same_key(a: &Event, b: &Event) -> bool
    ensures { result ≡ same_key a.now b.now }
{
    b.notice().has_key_of(a)
}

/// A number that is the same for events with the same key. It doesn't depend on the filesystem: the
/// numbers of objects are those of the whole machine.
pub fn key_hash(event: &Event) -> u64
    ensures { result ≡ key_hash event.now }
{
    event.notice().key_hash()
}

impl<'a> Notice<'a> {
    /// Whether an event has its key, as [`same_key`] tells of two events.
    pub fn has_key_of(&self, event: &Event) -> bool
        ensures { result ≡ same_key event.now self.now }
    {
        event.who == self.who
            && event.ondir == self.ondir
            && same_target(&event.target, &self.target)
    }

    /// The hash of its key, as [`key_hash`] tells it of an event.
    #[tactic(auto, unfolding(crate::specs::Keys::key_hash))]
    pub fn key_hash(&self) -> u64
        ensures { result ≡ key_hash self.now }
    {
        let who = who_number(self.who, self.ondir);
        match &self.target {
            TargetRef::Fd { mount, inode } => packed(*mount, *inode, who),
            TargetRef::Handle {
                object,
                dir,
                name,
                ..
            } => {
                let numbers = packed(object.unwrap_or(0), dir.unwrap_or(0), who);
                numbers.wrapping_add(optional_name_hash(name))
            }
        }
    }
}

// Whether the two are the same object.
fn same_target(a: &Target, b: &TargetRef<'_>) -> bool
    ensures { result ≡ same_target a.now (target_seen b.now) }
{
    match (a, b) {
        (
            Target::Fd { mount, inode },
            TargetRef::Fd {
                mount: other_mount,
                inode: other_inode,
            },
        ) => mount == other_mount && inode == other_inode,
        (
            Target::Handle {
                fs,
                object,
                dir,
                name,
            },
            TargetRef::Handle {
                fs: other_fs,
                object: other_object,
                dir: other_dir,
                name: other_name,
            },
        ) => {
            fs == other_fs
                && object == other_object
                && dir == other_dir
                && same_name(name, other_name)
        }
        _ => false,
    }
}

// Whether both have the same bytes, or neither is there.
fn same_name(a: &Option<Name>, b: &Option<NameRef<'_>>) -> bool
    ensures { result ≡ same_name a.now b.now }
{
    match (a, b) {
        (Some(a), Some(b)) => a.bytes() == b.bytes(),
        (None, None) => true,
        _ => false,
    }
}

// The process or thread with the directory bit.
fn who_number(who: u32, ondir: bool) -> u64
    ensures value { result ≡ who_number who ondir }
    ensures small { result < 2 ^ 33 }
{
    u64::from(who) * 2 + u64::from(ondir)
}

// Three numbers in one.
fn packed(high: u32, middle: u32, low: u64) -> u64
    ensures { result ≡ (high * 2 ^ 48 + middle * 2 ^ 32 + low) % 2 ^ 64 }
{
    u64::from(high)
        .wrapping_mul(1 << 48)
        .wrapping_add(u64::from(middle) << 32)
        .wrapping_add(low)
}

// The hash of a name, or 0.
fn optional_name_hash(name: &Option<NameRef<'_>>) -> u64
    ensures { result ≡ optional_name_hash name.now }
{
    match name {
        Some(name) => name_hash(name.bytes()),
        None => 0,
    }
}

// The hash of the bytes of a name.
#[tactic(auto, unfolding(crate::specs::Keys::name_hash))]
fn name_hash(bytes: &[u8]) -> u64
    ensures { result ≡ name_hash bytes.now }
{
    let mut hash = FNV_BASIS;
    for byte in bytes {
        hash = (hash ^ u64::from(*byte)).wrapping_mul(FNV_PRIME);
    }
    hash
}
