// A mark, and the order of groups: fanotify_mark(2).
ghost use Rattle.std.specs.Prelude.{◌≡◌};
ghost use Rattle.fan_bits.specs.Marks.{order_number, order_of, stands, without};

use super::bits::{FAN_EVENT_ON_CHILD, FAN_ONDIR};
use super::class::Class;
use super::kind::Kind;

/// The mark of a group on an object.
#[derive(Clone, Copy, Debug, PartialEq, Eq)]
pub struct Mark {
    /// The group, from 1.
    pub group: u32,
    /// The class of the group.
    pub class: Class,
    /// The object, from 1 to 65,535.
    pub object: u32,
    /// What the object is.
    pub kind: Kind,
    /// The events that it asks for, as bits of fanotify_mark(2), with FAN_ONDIR and
    /// FAN_EVENT_ON_CHILD.
    pub mask: u32,
    /// The events that it ignores.
    pub ignored: u32,
    /// Whether the ignored set survives a write to the file.
    pub survives: bool,
}

/// The position of a group in the order of asks and tells: the rank of its class times 2^32, plus
/// its number. 0 comes before all groups.
#[derive(Clone, Copy, Debug, PartialEq, Eq, PartialOrd, Ord)]
pub struct Order(pub u64);

impl Order {
    /// Before all groups.
    pub const START: Order = Order(0);

    /// The position of a group of a class.
    pub fn of(class: Class, group: u32) -> Order
        ensures { result.0 ≡ order_number class group }
    {
        Order(u64::from(class.rank()) * 4_294_967_296 + u64::from(group))
    }
}

impl Mark {
    /// The position of its group in the order of asks and tells.
    pub fn order(&self) -> Order
        ensures { result.0 ≡ order_of self.now }
    {
        Order::of(self.class, self.group)
    }

    /// Whether it has an event in its mask or in its ignored set. A mark without one is removed.
    pub fn stands(&self) -> bool
        ensures { result ≡ stands self.now }
    {
        let has_event = without(self.mask, QUALIFIERS) != 0;
        has_event || self.ignored != 0
    }
}

// The two bits that qualify events and are none.
pub(crate) const QUALIFIERS: u32 = FAN_ONDIR | FAN_EVENT_ON_CHILD;

// The word without the bits of another.
pub(crate) fn without(word: u32, bits: u32) -> u32
    ensures { result ≡ without word bits }
{
    word & !bits
}
