// The names that found no free cell: each directory is found at once, and a name in it in logarithmic time.
ghost use Rattle.std.specs.Prelude.{◌≡◌, ℕ, ◌<◌, [], None, OnOk, Some, length};
ghost use Rattle.fan_tree.specs.Spilled.{AreSameBut, names_in, number_in};

use super::dir::Dir;
use fan_io::NoMemory;
use std::alloc::Global;
use std::marker::Model;

/// Names in each directory, which stand at its number.
#[derive(Drop)]
pub(crate) struct Spilled {
    alloc: Global,
    dirs: Vec<Dir>,
}

impl Model for Spilled {
    ghost use Rattle.fan_tree.specs.Spilled.{Dirs};

    ghost Value = { Dirs };

    ghost view = { λ s. s.dirs.items };
}

impl Spilled {
    /// No names.
    pub(crate) fn new(alloc: Global) -> Spilled
        ensures { result ≡ [] }
    {
        Spilled {
            alloc,
            dirs: Vec::new(alloc),
        }
    }

    /// The number that a name leads to in a directory; None exactly if the name isn't there.
    pub(crate) fn get(&self, dir: u32, name: &[u8]) -> Option<u32>
        ensures { result ≡ number_in self.now dir name.now }
    {
        self.dirs.get(dir as usize)?.get(name)
    }

    /// Puts a number at a name in a directory.
    pub(crate) fn insert(&mut self, dir: u32, name: &[u8], number: u32) -> Result<(), NoMemory>
        ensures here { OnOk result (number_in self.new dir name.now ≡ Some number) }
        ensures others { AreSameBut dir name.now self.old self.new }
    {
        let name = name.to_vec(self.alloc)?;
        reserve(&mut self.dirs, self.alloc, dir as usize)?;
        self.dirs[dir as usize].insert(name, number)
    }

    /// Takes a name out of a directory, if it is there.
    pub(crate) fn remove(&mut self, dir: u32, name: &[u8])
        ensures gone { number_in self.new dir name.now ≡ None }
        ensures others { AreSameBut dir name.now self.old self.new }
    {
        if let Some(names) = self.dirs.get_mut(dir as usize) {
            names.remove(name);
        }
    }
}

// Makes a directory with no name at each number, up to this one, that has none.
fn reserve(dirs: &mut Vec<Dir>, alloc: Global, dir: usize) -> Result<(), NoMemory>
    ensures same { (other : ℕ) → names_in dirs.new.items other ≡ names_in dirs.old.items other }
    ensures ok { OnOk result (dir < length dirs.new.items) }
{
    while dirs.len() <= dir {
        dirs.push(Dir::new(alloc))?;
    }
    Ok(())
}
