// A place, what happens there, and what a group wants of it.
ghost use Rattle.std.specs.Prelude.{◌≡◌};
ghost use Rattle.fan_bits.specs.Interest.{interest_order};
ghost use Rattle.fan_bits.specs.Places.{object_of};

use super::class::Class;
use super::kind::Kind;
use super::mark::Order;

/// What a path reaches: the numbers of objects, each from 1 to 65,535.
#[derive(Clone, Copy, Debug, PartialEq, Eq)]
pub struct Place {
    /// The mount through which the path goes.
    pub mount: u32,
    /// The filesystem of the inode.
    pub fs: u32,
    /// The file or directory.
    pub inode: u32,
    /// The directory that it is an entry of. A file always has one; the root of a filesystem has none.
    pub parent: Option<u32>,
    /// Whether it is a directory.
    pub dir: bool,
}

/// Something that happens at a place.
#[derive(Clone, Copy, Debug, PartialEq, Eq)]
pub struct Happening {
    /// The place. For an event of a directory entry it is that of the directory.
    pub place: Place,
    /// The events, as bits of fanotify_mark(2): FAN_OPEN and others.
    pub bits: u32,
    /// Whether the object, or the entry, is a directory.
    pub ondir: bool,
    /// Whether it is an event of a directory entry, such as FAN_CREATE.
    pub entry: bool,
}

/// The events of a happening that one group wants.
#[derive(Clone, Copy, Debug, PartialEq, Eq)]
pub struct Interest {
    /// The group, from 1.
    pub group: u32,
    /// The class of the group.
    pub class: Class,
    /// The events that it wants, as bits of fanotify_mark(2).
    pub bits: u32,
}

impl Place {
    /// The object that a mark of a kind is on.
    pub fn object(&self, kind: Kind) -> u32
        ensures { result ≡ object_of kind self.now }
    {
        match kind {
            Kind::Inode => self.inode,
            Kind::Mount => self.mount,
            Kind::Filesystem => self.fs,
        }
    }
}

impl Interest {
    /// The position of its group in the order of asks and tells.
    pub fn order(&self) -> Order
        ensures { result.0 ≡ interest_order self.now }
    {
        Order::of(self.class, self.group)
    }
}
