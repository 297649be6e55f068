// The entry of an inode: its name in a directory.
ghost use Rattle.std.specs.Prelude.{◌≡◌};
ghost use Rattle.fan_tree.specs.Entries.{has_name, tag_of};

use super::tag::name_tag;
use std::marker::Model;

/// A name in a directory.
#[derive(Drop)]
pub(crate) struct Entry {
    dir: u32,
    tag: u32,
    name: Vec<u8>,
}

impl Model for Entry {
    ghost use Rattle.std.specs.Prelude.{◌≡◌};
    ghost use Rattle.fan_tree.specs.Entries.{NameIn};
    ghost use Rattle.fan_tree.specs.Tags.{name_tag};

    ghost Value = { NameIn };

    ghost view = { λ e. record { dir = e.dir; name = e.name.items } };

    ghost invariant = { λ e. e.tag ≡ name_tag e.dir e.name.items };
}

impl Entry {
    /// A name in a directory.
    pub(crate) fn new(dir: u32, name: Vec<u8>) -> Entry
        ensures { result ≡ record { dir = dir; name = name.items } }
    {
        let tag = name_tag(dir, name.as_slice());
        Entry { dir, tag, name }
    }

    /// The directory.
    pub(crate) fn dir(&self) -> u32
        ensures { result ≡ self.now.dir }
    {
        self.dir
    }

    /// The name.
    pub(crate) fn name(&self) -> &[u8]
        ensures { result.now ≡ self.now.name }
    {
        self.name.as_slice()
    }

    /// The tag of the name.
    pub(crate) fn tag(&self) -> u32
        ensures { result ≡ tag_of self.now }
    {
        self.tag
    }

    /// Whether it is a name in a directory.
    pub(crate) fn has_name(&self, dir: u32, name: &[u8]) -> bool
        ensures { result ≡ has_name dir name.now self.now }
    {
        self.dir == dir && self.name.as_slice() == name
    }
}
