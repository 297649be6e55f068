// The entries of all directories: a name in one is found at once, or in logarithmic time if too many have its tag.
ghost use Rattle.std.specs.Prelude.{◌≡◌, ◌<◌, ◌==◌, ◌∷◌, ◌++◌, [], None, All, IfSome, IsSome, OnErr, OnOk, Some, filter, find, length, map, not, option_map};
ghost use Rattle.std.specs.List.{AllPairs, list_any};
ghost use Rattle.fan_tree.specs.Ancestors.{leads_to};
ghost use Rattle.fan_tree.specs.Changes.{moved};
ghost use Rattle.fan_tree.specs.Tree.{is_named};
ghost use Rattle.fan_tree.specs.Whole.{AreApart};

use super::counts::Counts;
use super::entries::Entries;
use super::entry::Entry;
use super::table::Table;
use fan_io::NoMemory;
use std::alloc::Global;
use std::marker::Model;

/// The entries of all directories, by the numbers of the inodes that they lead to.
#[derive(Drop)]
pub(crate) struct Names {
    alloc: Global,
    entries: Entries,
    // Where the number that a name leads to is found.
    table: Table,
    // How many entries each directory has. The one that was added last is tried before the table: many
    // directories have one entry alone.
    counts: Counts,
}

impl Model for Names {
    ghost use Rattle.std.specs.Prelude.{List};
    ghost use Rattle.fan_tree.specs.Entries.{entries_of};
    ghost use Rattle.fan_tree.specs.Table.{AreKept};
    ghost use Rattle.fan_tree.specs.Tree.{DirEntry};

    ghost Value = { List DirEntry };

    ghost view = { λ n. entries_of n.entries };

    ghost invariant = { λ n. AreKept n.entries n.table n.counts };
}

impl Names {
    /// No names.
    pub(crate) fn new(alloc: Global) -> Names
        ensures { result ≡ [] }
    {
        Names {
            alloc,
            entries: Entries::new(alloc),
            table: Table::new(alloc),
            counts: Counts::new(alloc),
        }
    }

    /// The number that a name leads to in a directory; None exactly if the directory has no such name.
    pub(crate) fn get(&self, dir: u32, name: &[u8]) -> Option<u32>
        requires { AllPairs AreApart self.now }
        ensures { result
            ≡ option_map (λ entry. entry.inode) (find (is_named dir name.now) self.now) }
    {
        let newest = self.counts.newest(dir);
        if self.entries.leads(dir, name, newest) {
            return Some(newest);
        }
        self.table.get(&self.entries, dir, name)
    }

    /// Whether a directory has a name.
    pub(crate) fn has_any(&self, dir: u32) -> bool
        ensures { result ≡ list_any (λ entry. entry.dir == dir) self.now }
    {
        self.counts.get(dir) > 0
    }

    /// The directory that has the name of an inode; None exactly if no name leads to the inode.
    pub(crate) fn parent(&self, number: u32) -> Option<u32>
        ensures { result
            ≡ option_map (λ entry. entry.dir) (find (leads_to number) self.now) }
    {
        Some(self.entries.get(number)?.dir())
    }

    /// Adds a name to a directory, which leads to a number above those that the others lead to.
    pub(crate) fn push(&mut self, dir: u32, name: &[u8], number: u32) -> Result<(), NoMemory>
        requires first { 0 < number }
        requires free { find (is_named dir name.now) self.old ≡ None }
        requires last { All (λ entry. entry.inode < number) self.old }
        requires unique { AllPairs AreApart self.old }
        ensures ok { OnOk result (self.new
            ≡ self.old ++ record { dir = dir; name = name.now; inode = number } ∷ []) }
        ensures err { OnErr result (self.new ≡ self.old) }
    {
        let entry = Entry::new(dir, name.to_vec(self.alloc)?);
        self.entries.reserve(number)?;
        self.counts.reserve(dir)?;
        self.table.make_room(self.alloc, &self.entries)?;
        self.table.note(&self.entries, &entry, number)?;
        self.entries.set(number, Some(entry));
        self.counts.add(dir, number);
        Ok(())
    }

    /// Takes a name out of its directory, with its number. No other name leads there.
    pub(crate) fn remove(&mut self, dir: u32, name: &[u8], number: u32)
        requires there { find (is_named dir name.now) self.old
            ≡ Some (record { dir = dir; name = name.now; inode = number }) }
        requires unique { AllPairs AreApart self.old }
        ensures { self.new ≡ filter (λ entry. not (is_named dir name.now entry)) self.old }
    {
        self.table.forget(dir, name);
        self.entries.set(number, None);
        self.counts.subtract(dir);
    }

    /// Moves a name, with its number, to another directory or to another name there. No other name leads there.
    pub(crate) fn rename(
        &mut self,
        dir: u32,
        name: &[u8],
        number: u32,
        to: u32,
        new_name: &[u8],
    ) -> Result<(), NoMemory>
        requires there { find (is_named dir name.now) self.old
            ≡ Some (record { dir = dir; name = name.now; inode = number }) }
        requires free { find (is_named to new_name.now) self.old ≡ None }
        requires unique { AllPairs AreApart self.old }
        ensures ok { OnOk result (self.new ≡ map (moved dir name.now to new_name.now) self.old) }
        ensures err { OnErr result (self.new ≡ self.old) }
    {
        let entry = Entry::new(to, new_name.to_vec(self.alloc)?);
        self.counts.reserve(to)?;
        self.table.note(&self.entries, &entry, number)?;
        self.table.forget(dir, name);
        self.entries.set(number, Some(entry));
        self.counts.subtract(dir);
        self.counts.add(to, number);
        Ok(())
    }
}
