// The table of a queue: where the events that are queued are found by their keys.
ghost use Rattle.std.specs.Prelude.{◌≡◌, ◌≢◌, ◌+◌, ◌≤◌, ◌<◌, ◌^◌, ℕ, true, length, IfOk, OnOk, slice_get};
ghost use Rattle.std.specs.Option.{ForSome, option_copied};
ghost use Rattle.fan_queue.specs.declared.keys.EntryKey.{EntryKey};
ghost use Rattle.fan_queue.specs.Cells.{group_index};
ghost use Rattle.fan_queue.specs.Keys.{is_noted, key_of};
ghost use Rattle.fan_queue.specs.Queued.{AreNumbered};
ghost use Rattle.fan_queue.specs.Table.{AreKnown, is_known};

use super::cells::{Cell, FREE_GROUP, Group, group_index, place, spill_from, tag_of};
use super::entry::Entry;
use super::keys::{EntryKey, key_of};
use fan_io::NoMemory;
use fan_map::Map;
use std::alloc::Global;
use std::collections::VecDeque;
use std::marker::Model;

// How many groups there are at least, once there is a key.
const LEAST_GROUPS: usize = 4;

// How many entries for each group make a table grow: more than half of its cells.
const CROWD: usize = 4;

/// The keys of queued events. It may keep those of entries that left, but loses none of an entry that
/// is queued. A key is found in a cell of its group, or else among those that are spilled.
#[derive(Drop)]
pub(crate) struct Table {
    // The cells, in groups by their tags.
    pub(crate) groups: Vec<Group>,
    // The keys that found their group full.
    pub(crate) spilled: Map<EntryKey, ()>,
}

impl Model for Table {
    ghost use Rattle.fan_queue.specs.TableState.{TableState};

    ghost Value = { TableState };

    ghost view = { λ t. record { groups = t.groups.items; spilled = t.spilled.entries } };
}

impl Table {
    /// A table with no key. Takes no memory.
    pub(crate) fn new(alloc: Global) -> Table {
        Table {
            groups: Vec::new(alloc),
            spilled: Map::new(alloc),
        }
    }

    // A table of so many groups with the keys of all entries, of which the first has the number `front`.
    fn of(
        alloc: Global,
        count: usize,
        entries: &VecDeque<Entry>,
        front: u64,
    ) -> Result<Table, NoMemory>
        requires numbered { AreNumbered (front + length entries.now.items) entries.now.items }
        requires few { front + length entries.now.items ≤ 2 ^ 31 }
        ensures { IfOk result (λ table. AreKnown entries.now.items table) }
    {
        let mut table = Table {
            groups: vec![in alloc; FREE_GROUP; count]?,
            spilled: Map::new(alloc),
        };
        for index in 0..entries.len() {
            table.note_entry(&entries[index], front)?;
        }
        Ok(table)
    }

    /// Notes the key of an entry that comes behind all others, if it has one; it is known to the caller. All
    /// keys that were known still are, also where this fails.
    ///
    /// # Errors
    /// `NoMemory` if no memory was found for it.
    pub(crate) fn note_last(
        &mut self,
        alloc: Global,
        entries: &VecDeque<Entry>,
        entry: &Entry,
        key: Option<EntryKey>,
    ) -> Result<(), NoMemory>
        requires key { key ≡ key_of entry.now }
        requires numbered { AreNumbered entry.now.number entries.now.items }
        requires few { entry.now.number ≤ 2 ^ 31 }
        requires known { AreKnown entries.now.items self.old }
        ensures noted { OnOk result (ForSome (key_of entry.now) (λ key. is_known key self.new ≡ true)) }
        ensures kept { AreKnown entries.now.items self.new }
    {
        let Some(key) = key else {
            return Ok(());
        };
        let front = front_number(entries, entry.number);
        self.make_room(alloc, entries, front)?;
        self.note(key, front)
    }

    /// The group of a tag, if there is any group.
    pub(crate) fn group(&self, tag: u32) -> Option<&Group>
        ensures { option_copied result
            ≡ slice_get self.now.groups (group_index tag (length self.now.groups)) }
    {
        self.groups.get(group_index(tag, self.groups.len()))
    }

    // Grows to the double where the groups are crowded.
    fn make_room(
        &mut self,
        alloc: Global,
        entries: &VecDeque<Entry>,
        front: u64,
    ) -> Result<(), NoMemory>
        requires numbered { AreNumbered (front + length entries.now.items) entries.now.items }
        requires few { front + length entries.now.items ≤ 2 ^ 31 }
        requires known { AreKnown entries.now.items self.old }
        ensures { AreKnown entries.now.items self.new }
    {
        let count = entries.len();
        if count / CROWD >= self.groups.len() {
            let groups = (count / CROWD * 2).max(LEAST_GROUPS);
            *self = Table::of(alloc, groups, entries, front)?;
        }
        Ok(())
    }

    // Notes the key of an entry, if it has one.
    fn note_entry(&mut self, entry: &Entry, front: u64) -> Result<(), NoMemory>
        requires { entry.now.number < 2 ^ 32 }
        ensures noted { OnOk result (ForSome (key_of entry.now) (λ key. is_known key self.new ≡ true)) }
        ensures kept { (other : EntryKey) → front ≤ other.number
            → is_known other self.old ≡ true → is_known other self.new ≡ true }
    {
        match key_of(entry) {
            Some(key) => self.note(key, front),
            None => Ok(()),
        }
    }

    // Notes the key of an entry, whose number is not below that of the front. Fails only if its group is
    // full, and no memory was found for it elsewhere; all other keys are still known then.
    fn note(&mut self, key: EntryKey, front: u64) -> Result<(), NoMemory>
        requires { key.number < 2 ^ 32 }
        ensures known { OnOk result (is_known key self.new ≡ true) }
        ensures kept { (other : EntryKey) → front ≤ other.number
            → is_known other self.old ≡ true → is_known other self.new ≡ true }
    {
        let tag = tag_of(key.hash);
        let number = key.number as u32;
        let index = group_index(tag, self.groups.len());
        if place(&mut self.groups, index, Cell { tag, number }, front) {
            return Ok(());
        }
        spill(&mut self.spilled, key)?;
        spill_from(&mut self.groups, index, key.number);
        Ok(())
    }

    /// Forgets the key of an entry that left, if it was spilled.
    pub(crate) fn forget(&mut self, entry: &Entry)
        ensures { (key : EntryKey) → key.number ≢ entry.now.number
            → is_known key self.old ≡ true → is_known key self.new ≡ true }
    {
        if self.spilled.is_empty() {
            return;
        }
        if let Some(key) = key_of(entry)
            && self.may_be_spilled(&key)
        {
            self.spilled.remove(&key);
        }
    }

    // Whether the group of a key noted that it sent away an entry with its number or a later one.
    fn may_be_spilled(&self, key: &EntryKey) -> bool {
        match self.group(tag_of(key.hash)) {
            Some(group) => key.number <= group.spilled,
            None => true,
        }
    }
}

// The number of the first entry, or the next number if there is none.
pub(crate) fn front_number(entries: &VecDeque<Entry>, next_entry: u64) -> u64
    requires { AreNumbered next_entry entries.now.items }
    ensures { next_entry ≡ result + length entries.now.items }
{
    next_entry - entries.len() as u64
}

// Notes a key that found its group full.
fn spill(spilled: &mut Map<EntryKey, ()>, key: EntryKey) -> Result<(), NoMemory>
    ensures noted { OnOk result (is_noted key spilled.new.entries ≡ true) }
    ensures kept { (other : EntryKey) → is_noted other spilled.old.entries ≡ true
        → is_noted other spilled.new.entries ≡ true }
{
    if !spilled.contains_key(&key) {
        spilled.reserve()?;
        spilled.insert_reserved(key, ());
    }
    Ok(())
}
