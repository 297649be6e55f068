// The keys of a mark in the two indexes of the book.
ghost use Rattle.std.specs.Prelude.{◌≡◌};
ghost use Rattle.fan_marks.specs.Keys.{group_key, key_at, object_key};

use fan_bits::{Class, Kind, Mark, Order};

/// The key of a mark among all: its object, and on one object the order of its group.
#[derive(Clone, Copy, Debug, PartialEq, Eq, PartialOrd, Ord)]
pub(crate) struct ObjectKey {
    pub(crate) object: u32,
    pub(crate) order: Order,
}

/// The key of a mark among those of its group: the kind of its object, and in a kind the object.
#[derive(Clone, Copy, Debug, PartialEq, Eq, PartialOrd, Ord)]
pub(crate) struct GroupKey {
    pub(crate) group: u32,
    pub(crate) kind: Kind,
    pub(crate) object: u32,
}

impl ObjectKey {
    /// The key of a group's mark on an object.
    pub(crate) fn new(object: u32, class: Class, group: u32) -> ObjectKey
        ensures { result ≡ key_at object class group }
    {
        ObjectKey {
            object,
            order: Order::of(class, group),
        }
    }

    /// The key of a mark.
    pub(crate) fn of(mark: &Mark) -> ObjectKey
        ensures { result ≡ object_key mark.now }
    {
        ObjectKey::new(mark.object, mark.class, mark.group)
    }
}

impl GroupKey {
    /// The key of a mark.
    pub(crate) fn of(mark: &Mark) -> GroupKey
        ensures { result ≡ group_key mark.now }
    {
        GroupKey {
            group: mark.group,
            kind: mark.kind,
            object: mark.object,
        }
    }
}
