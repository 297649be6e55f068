// How many entries each directory has, and which was added last.
ghost use Rattle.std.specs.Prelude.{◌≡◌, ℕ, ◌+◌, ◌-◌, ◌<◌, ◌^◌, [], OnOk, length, slice_index, slice_set};

use fan_io::NoMemory;
use std::alloc::Global;
use std::marker::Model;

/// How many entries each directory has, at its number.
#[derive(Drop)]
pub(crate) struct Counts {
    counts: Vec<usize>,
    // The number that the entry leads to which was added last.
    newest: Vec<u32>,
}

impl Model for Counts {
    ghost use Rattle.std.specs.Prelude.{ℕ, List};

    ghost Value = { List ℕ };

    ghost view = { λ c. c.counts.items };
}

impl Counts {
    /// No entries.
    pub(crate) fn new(alloc: Global) -> Counts
        ensures { result ≡ [] }
    {
        Counts {
            counts: Vec::new(alloc),
            newest: Vec::new(alloc),
        }
    }

    /// How many entries a directory has.
    pub(crate) fn get(&self, dir: u32) -> usize
        ensures { result ≡ slice_index self.now dir }
    {
        self.counts.get(dir as usize).copied().unwrap_or(0)
    }

    /// The number that the entry of a directory leads to which was added last, or another number: it isn't
    /// noted where an entry is taken away. A caller tests it.
    pub(crate) fn newest(&self, dir: u32) -> u32 {
        self.newest.get(dir as usize).copied().unwrap_or(0)
    }

    /// Makes room for the count of a directory.
    pub(crate) fn reserve(&mut self, dir: u32) -> Result<(), NoMemory>
        ensures same { (other : ℕ) → slice_index self.new other ≡ slice_index self.old other }
        ensures ok { OnOk result (dir < length self.new) }
    {
        let enough = dir as usize + 1;
        if self.counts.len() < enough {
            self.newest.resize(enough, 0)?;
            self.counts.resize(enough, 0)?;
        }
        Ok(())
    }

    /// Counts an entry more in a directory, for which there is room, and notes the number that it leads to.
    pub(crate) fn add(&mut self, dir: u32, number: u32)
        requires room { dir < length self.old }
        requires few { slice_index self.old dir + 1 < 2 ^ 64 }
        ensures { self.new ≡ slice_set self.old dir (slice_index self.old dir + 1) }
    {
        self.counts[dir as usize] += 1;
        if let Some(newest) = self.newest.get_mut(dir as usize) {
            *newest = number;
        }
    }

    /// Counts an entry less in a directory, which has one.
    pub(crate) fn subtract(&mut self, dir: u32)
        requires { 0 < slice_index self.old dir }
        ensures { self.new ≡ slice_set self.old dir (slice_index self.old dir - 1) }
    {
        self.counts[dir as usize] -= 1;
    }
}
