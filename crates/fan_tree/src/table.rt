// The table of names: in which cell the number that a name leads to is found, or whether it was spilled.
ghost use Rattle.std.specs.Prelude.{◌≡◌, ℕ, ◌+◌, All, IfNone, IfOk, IfSome, OnOk, false, length, slice_get, true};
ghost use Rattle.std.specs.Option.{option_copied};
ghost use Rattle.fan_tree.specs.Cells.{group_index};
ghost use Rattle.fan_tree.specs.Entries.{AreUnique, Entries, leads};
ghost use Rattle.fan_tree.specs.Spilled.{is_number, number_in};
ghost use Rattle.fan_tree.specs.Table.{AreKnown, KeepsOthers, is_known};

use super::cells::{Cell, FREE_GROUP, Group, group_index, place, spill_from};
use super::entries::Entries;
use super::entry::Entry;
use super::spilled::Spilled;
use super::tag::name_tag;
use fan_io::NoMemory;
use std::alloc::Global;
use std::marker::Model;

// How many groups there are at least, once there is a name.
const LEAST_GROUPS: usize = 4;

// How many numbers for each group make a table grow: nearly half of its cells.
const CROWD: usize = 3;

/// Names with their numbers. It may keep names that are gone, but loses none of an entry. A name is found in a cell
/// of its group, or else among those that are spilled.
#[derive(Drop)]
pub(crate) struct Table {
    // The cells, in groups by their tags.
    groups: Vec<Group>,
    // The names that found their group full.
    spilled: Spilled,
}

impl Model for Table {
    ghost use Rattle.fan_tree.specs.Table.{TableState};

    ghost Value = { TableState };

    ghost view = { λ t. record { groups = t.groups.items; spilled = t.spilled } };
}

impl Table {
    /// A table with no name. Takes no memory.
    pub(crate) fn new(alloc: Global) -> Table {
        Table {
            groups: Vec::new(alloc),
            spilled: Spilled::new(alloc),
        }
    }

    // A table of so many groups with the names of all entries.
    fn of(alloc: Global, count: usize, entries: &Entries) -> Result<Table, NoMemory>
        requires { AreUnique entries.now }
        ensures { IfOk result (λ table. AreKnown entries.now table (length entries.now)) }
    {
        let mut table = Table {
            groups: vec![in alloc; FREE_GROUP; count]?,
            spilled: Spilled::new(alloc),
        };
        for number in 0..entries.len() {
            table.note_entry(entries, number as u32)?;
        }
        Ok(table)
    }

    /// Grows to the double where the groups are crowded. All entries are still found, also where this fails.
    pub(crate) fn make_room(&mut self, alloc: Global, entries: &Entries) -> Result<(), NoMemory>
        requires unique { AreUnique entries.now }
        requires known { AreKnown entries.now self.old (length entries.now) }
        ensures { AreKnown entries.now self.new (length entries.now) }
    {
        let least = entries.len() / CROWD;
        if least >= self.groups.len() {
            *self = Table::of(alloc, (least * 2).max(LEAST_GROUPS), entries)?;
        }
        Ok(())
    }

    /// Notes the number of a name. All other entries are still found, also where this fails: that is only if its
    /// group is full, and no memory was found for it elsewhere.
    pub(crate) fn note(
        &mut self,
        entries: &Entries,
        entry: &Entry,
        number: u32,
    ) -> Result<(), NoMemory>
        ensures known { OnOk result (is_known self.new number entry.now ≡ true) }
        ensures kept { KeepsOthers entries.now entry.now.dir entry.now.name self.old self.new }
    {
        let tag = entry.tag();
        let index = group_index(tag, self.groups.len());
        if place(&mut self.groups, index, Cell { tag, number }, entries) {
            return Ok(());
        }
        self.spilled.insert(entry.dir(), entry.name(), number)?;
        spill_from(&mut self.groups, index);
        Ok(())
    }

    // Notes the entry of an inode, if it has one.
    fn note_entry(&mut self, entries: &Entries, number: u32) -> Result<(), NoMemory>
        requires unique { AreUnique entries.now }
        requires known { AreKnown entries.now self.old number }
        ensures ok { OnOk result (AreKnown entries.now self.new (number + 1)) }
    {
        match entries.get(number) {
            Some(entry) => self.note(entries, entry, number),
            None => Ok(()),
        }
    }

    /// Forgets a name, if it was spilled. All other entries are still found.
    pub(crate) fn forget(&mut self, dir: u32, name: &[u8])
        ensures { (entries : Entries) → KeepsOthers entries dir name.now self.old self.new }
    {
        self.spilled.remove(dir, name);
    }

    /// The number that a name leads to in a directory, if it is found.
    pub(crate) fn get(&self, entries: &Entries, dir: u32, name: &[u8]) -> Option<u32>
        ensures some { IfSome result (λ number. leads entries.now dir name.now number ≡ true) }
        ensures none { IfNone result ((number : ℕ) →
            is_known self.now number (record { dir = dir; name = name.now }) ≡ true
            → leads entries.now dir name.now number ≡ false) }
    {
        let tag = name_tag(dir, name);
        let Some(group) = self.group(tag) else {
            return in_spilled(&self.spilled, entries, dir, name);
        };
        if let Some(number) = in_cells(&group.cells, tag, entries, dir, name) {
            return Some(number);
        }
        if !group.spilled {
            return None;
        }
        in_spilled(&self.spilled, entries, dir, name)
    }

    // The group of a tag, if there is any group.
    fn group(&self, tag: u32) -> Option<&Group>
        ensures { option_copied result
            ≡ slice_get self.now.groups (group_index tag (length self.now.groups)) }
    {
        self.groups.get(group_index(tag, self.groups.len()))
    }
}

// The number that a name leads to, if it is that of a cell with the tag of the name.
fn in_cells(cells: &[Cell], tag: u32, entries: &Entries, dir: u32, name: &[u8]) -> Option<u32>
    ensures some { IfSome result (λ number. leads entries.now dir name.now number ≡ true) }
    ensures none { IfNone result (All (λ cell. cell.tag ≡ tag
        → leads entries.now dir name.now cell.number ≡ false) cells.now) }
{
    for cell in cells {
        if cell.tag == tag && entries.leads(dir, name, cell.number) {
            return Some(cell.number);
        }
    }
    None
}

// The number that a name leads to, if it was spilled.
fn in_spilled(spilled: &Spilled, entries: &Entries, dir: u32, name: &[u8]) -> Option<u32>
    ensures some { IfSome result (λ number. leads entries.now dir name.now number ≡ true) }
    ensures none { IfNone result ((number : ℕ) →
        is_number number (number_in spilled.now dir name.now) ≡ true
        → leads entries.now dir name.now number ≡ false) }
{
    let number = spilled.get(dir, name)?;
    if entries.leads(dir, name, number) {
        Some(number)
    } else {
        None
    }
}
