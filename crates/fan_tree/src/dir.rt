// Names in one directory, found in logarithmic time.
ghost use Rattle.std.specs.Prelude.{◌≡◌, [], None, OnErr, OnOk, Some};
ghost use Rattle.fan_tree.specs.Spilled.{AreSame, number_of};

use fan_io::NoMemory;
use std::alloc::Global;
use std::collections::BTreeMap;
use std::marker::Model;

/// Names in a directory, each with the number of the inode that it leads to.
#[derive(Drop)]
pub(crate) struct Dir {
    numbers: BTreeMap<Vec<u8>, u32>,
}

impl Model for Dir {
    ghost use Rattle.fan_tree.specs.Spilled.{Named, named};

    ghost Value = { Named };

    ghost view = { λ d. named d.numbers.entries };
}

impl Dir {
    /// No name.
    pub(crate) fn new(alloc: Global) -> Dir
        ensures { result ≡ [] }
    {
        Dir {
            numbers: BTreeMap::new(alloc),
        }
    }

    /// The number that a name leads to; None exactly if the name isn't there.
    pub(crate) fn get(&self, name: &[u8]) -> Option<u32>
        ensures { result ≡ number_of self.now name.now }
    {
        self.numbers.get(name).copied()
    }

    /// Puts a number at a name.
    pub(crate) fn insert(&mut self, name: Vec<u8>, number: u32) -> Result<(), NoMemory>
        ensures here { OnOk result (number_of self.new name.items ≡ Some number) }
        ensures others { OnOk result (AreSame name.items self.old self.new) }
        ensures err { OnErr result (self.new ≡ self.old) }
    {
        self.numbers.insert(name, number)?;
        Ok(())
    }

    /// Takes a name away, if it is there.
    pub(crate) fn remove(&mut self, name: &[u8])
        ensures gone { number_of self.new name.now ≡ None }
        ensures others { AreSame name.now self.old self.new }
    {
        self.numbers.remove(name);
    }
}
