// The inodes by their numbers, each found at once.
ghost use Rattle.std.specs.Prelude.{◌≡◌, ◌≢◌, ◌<◌, ◌≤◌, ◌==◌, ◌∷◌, ◌++◌, [], All, IsSome, OnErr, OnOk, filter, find, not, option_map};
ghost use Rattle.fan_tree.specs.Inodes.{inode_at};
ghost use Rattle.fan_tree.specs.Tree.{about_of, root_inode};

use super::inode::About;
use fan_io::NoMemory;
use std::alloc::Global;
use std::marker::Model;

/// The root directory of filesystem 1, which is always there.
const FIRST_ROOT: u32 = 2;

/// The number of the first slot. Object 3 is the mount at `/`.
const FIRST_SLOT: u32 = 4;

/// What is told of each inode, in the slot of its number.
#[derive(Drop)]
pub(crate) struct Inodes {
    slots: Vec<Option<About>>,
}

impl Model for Inodes {
    ghost use Rattle.fan_tree.specs.Inodes.{InodesState, kept_inodes};

    ghost Value = { InodesState };

    ghost view = { λ i. kept_inodes i.slots.items };
}

impl Inodes {
    /// The root of filesystem 1 alone. Takes no memory.
    pub(crate) fn new(alloc: Global) -> Inodes
        ensures { result.inodes ≡ root_inode 1 ∷ [] }
    {
        Inodes {
            slots: Vec::new(alloc),
        }
    }

    /// What is told of the inode with a number; None exactly if there is none.
    pub(crate) fn get(&self, number: u32) -> Option<About>
        ensures { result ≡ option_map about_of
            (find (λ inode. inode.number == number) self.now.inodes) }
    {
        let slots = self.slots.as_slice();
        if number == FIRST_ROOT {
            return Some(About { fs: 1, dir: true });
        }
        let index = number.checked_sub(FIRST_SLOT)?;
        slots.get(index as usize).copied().flatten()
    }

    /// Makes a slot for a number, if it has none, and those below it.
    pub(crate) fn reserve(&mut self, number: u32) -> Result<(), NoMemory>
        requires { 4 ≤ number }
        ensures inodes { self.new.inodes ≡ self.old.inodes }
        ensures ok { OnOk result (number < self.new.slots_end) }
        ensures err { OnErr result (self.new ≡ self.old) }
    {
        let enough = (number - FIRST_SLOT) as usize + 1;
        if self.slots.len() < enough {
            self.slots.resize(enough, None)?;
        }
        Ok(())
    }

    /// Adds an inode, whose number has a slot and is above all others.
    pub(crate) fn insert_reserved(&mut self, number: u32, about: About)
        requires first { 4 ≤ number }
        requires slot { number < self.old.slots_end }
        requires last { All (λ inode. inode.number < number) self.old.inodes }
        ensures { self.new.inodes ≡ self.old.inodes ++ inode_at number about ∷ [] }
    {
        self.slots[(number - FIRST_SLOT) as usize] = Some(about);
    }

    /// Takes an inode away, which isn't the root of filesystem 1.
    pub(crate) fn remove(&mut self, number: u32)
        requires other { number ≢ 2 }
        requires there { IsSome (find (λ inode. inode.number == number) self.old.inodes) }
        ensures { self.new.inodes
            ≡ filter (λ inode. not (inode.number == number)) self.old.inodes }
    {
        self.slots[(number - FIRST_SLOT) as usize] = None;
    }
}
