// Which slot each number has, and which was looked for last.
ghost use Rattle.std.specs.Prelude.{◌≡◌, ◌≤◌, [], OnErr, OnOk, None, option_map, slice_get};
ghost use Rattle.std.specs.BTreeMap.{insert_entry, is_at};
ghost use Rattle.std.specs.List.Sorted.{IsStrictlySortedBy};
ghost use Rattle.std.specs.Map.{keys_of, lookup, remove_entry};
ghost use Rattle.std.specs.Ordering.{nat_cmp};

use fan_io::NoMemory;
use fan_map::Map;
use std::alloc::Global;
use std::marker::Model;

/// A number, and the slot of its value.
#[derive(Clone, Copy, Debug)]
struct Place {
    number: u32,
    slot: usize,
}

/// The slots by their numbers, with room ahead as in fan_map's `Map`. A number that is looked for again and again is
/// found at once.
#[derive(Drop)]
pub(crate) struct Places {
    slots: Map<u32, usize>,
    // The place that was found last, as long as it is there.
    last: Option<Place>,
}

impl Model for Places {
    ghost use Rattle.std.specs.Prelude.{ℕ};
    ghost use Rattle.fan_map.specs.MapState.{MapState};
    ghost use Rattle.fan_slots.specs.Seen.{IsSeen};

    ghost Value = { MapState ℕ ℕ };

    ghost view = { λ p. p.slots };

    ghost invariant = { λ p. IsSeen p.last p.slots.entries };
}

impl Places {
    /// No numbers. Allocates nothing.
    pub(crate) fn new(alloc: Global) -> Places
        ensures entries { result.entries ≡ [] }
    {
        Places {
            slots: Map::new(alloc),
            last: None,
        }
    }

    /// The least number; None exactly if there is none.
    pub(crate) fn first(&self) -> Option<u32>
        ensures least { result ≡ option_map (λ place. place.0) (slice_get self.now.entries 0) }
        ensures sorted { IsStrictlySortedBy nat_cmp (keys_of self.now.entries) }
    {
        let (number, _) = self.slots.iter().next()?;
        Some(*number)
    }

    /// The slot of a number; None exactly if there is no such number.
    pub(crate) fn get(&self, number: u32) -> Option<usize>
        ensures value { result ≡ lookup (is_at (nat_cmp number)) self.now.entries }
    {
        self.slots.get(&number).copied()
    }

    /// The slot of a number, which is remembered; None exactly if there is no such number. Allocates nothing.
    pub(crate) fn find(&mut self, number: u32) -> Option<usize>
        ensures value { result ≡ lookup (is_at (nat_cmp number)) self.old.entries }
        ensures same { self.new ≡ self.old }
    {
        match self.last {
            Some(place) if place.number == number => Some(place.slot),
            _ => self.search(number),
        }
    }

    // Searches for a number, and remembers its place.
    fn search(&mut self, number: u32) -> Option<usize>
        ensures value { result ≡ lookup (is_at (nat_cmp number)) self.old.entries }
        ensures same { self.new ≡ self.old }
    {
        let slot = self.get(number)?;
        self.last = Some(Place { number, slot });
        Some(slot)
    }

    /// Makes room for one more, if there is none. Only this allocates.
    pub(crate) fn reserve(&mut self) -> Result<(), NoMemory>
        ensures room { OnOk result (1 ≤ self.new.spare) }
        ensures same { self.new.entries ≡ self.old.entries }
        ensures kept { self.old.spare ≤ self.new.spare }
        ensures full { OnErr result (self.old.spare ≡ 0) }
    {
        self.slots.reserve()?;
        Ok(())
    }

    /// Gives a slot to a number that has none. Allocates nothing.
    pub(crate) fn insert_reserved(&mut self, number: u32, slot: usize)
        requires room { 1 ≤ self.old.spare }
        requires absent { lookup (is_at (nat_cmp number)) self.old.entries ≡ None }
        ensures entries { self.new.entries ≡ insert_entry nat_cmp self.old.entries number slot }
    {
        self.slots.insert_reserved(number, slot);
        self.last = Some(Place { number, slot });
    }

    /// Takes a number away, and gives its slot; None exactly if there is no such number. Allocates nothing.
    pub(crate) fn remove(&mut self, number: u32) -> Option<usize>
        ensures value { result ≡ lookup (is_at (nat_cmp number)) self.old.entries }
        ensures entries { self.new.entries
            ≡ remove_entry (is_at (nat_cmp number)) self.old.entries }
        ensures spare { self.old.spare ≤ self.new.spare }
    {
        self.last = None;
        self.slots.remove(&number)
    }
}
