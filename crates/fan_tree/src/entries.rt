// The entries of inodes, each found at once by its inode's number.
ghost use Rattle.std.specs.Prelude.{◌≡◌, ◌<◌, ◌≤◌, ◌^◌, [], None, OnOk, length, slice_set};
ghost use Rattle.std.specs.Option.{option_copied};
ghost use Rattle.fan_tree.specs.Entries.{ArePadded, is_tagged, leads, slot_of};

use super::entry::Entry;
use fan_io::NoMemory;
use std::alloc::Global;
use std::marker::Model;

/// The entry of each inode, in the slot of its number. A slot is empty if its number is that of a root, or of no
/// inode.
#[derive(Drop)]
pub(crate) struct Entries {
    slots: Vec<Option<Entry>>,
}

impl Model for Entries {
    ghost use Rattle.std.specs.Prelude.{◌≤◌, ◌^◌, length};
    ghost use Rattle.fan_tree.specs.Entries.{Entries};

    ghost Value = { Entries };

    ghost view = { λ e. e.slots.items };

    ghost invariant = { λ e. length e.slots.items ≤ 2 ^ 32 };
}

impl Entries {
    /// No entries.
    pub(crate) fn new(alloc: Global) -> Entries
        ensures { result ≡ [] }
    {
        Entries {
            slots: Vec::new(alloc),
        }
    }

    /// How many slots there are.
    pub(crate) fn len(&self) -> usize
        ensures count { result ≡ length self.now }
        ensures few { result ≤ 2 ^ 32 }
    {
        self.slots.len()
    }

    /// The entry of the inode with a number; None if there is none.
    pub(crate) fn get(&self, number: u32) -> Option<&Entry>
        ensures { option_copied result ≡ slot_of self.now number }
    {
        self.slots.get(number as usize)?.as_ref()
    }

    /// Whether a name in a directory leads to a number.
    pub(crate) fn leads(&self, dir: u32, name: &[u8], number: u32) -> bool
        ensures { result ≡ leads self.now dir name.now number }
    {
        match self.get(number) {
            Some(entry) => entry.has_name(dir, name),
            None => false,
        }
    }

    /// Whether a name with a tag leads to a number.
    pub(crate) fn is_tagged(&self, tag: u32, number: u32) -> bool
        ensures { result ≡ is_tagged tag (slot_of self.now number) }
    {
        match self.get(number) {
            Some(entry) => entry.tag() == tag,
            None => false,
        }
    }

    /// Makes a slot for a number, if it has none, and those below it.
    pub(crate) fn reserve(&mut self, number: u32) -> Result<(), NoMemory>
        ensures same { ArePadded self.old self.new }
        ensures ok { OnOk result (number < length self.new) }
        ensures few { length self.new ≤ 2 ^ 32 }
    {
        while self.slots.len() <= number as usize {
            self.slots.push(None)?;
        }
        Ok(())
    }

    /// Puts an entry into the slot of a number, or empties it.
    pub(crate) fn set(&mut self, number: u32, entry: Option<Entry>)
        requires { number < length self.old }
        ensures { self.new ≡ slice_set self.old number entry }
    {
        self.slots[number as usize] = entry;
    }
}
