// The values, and the slot of each by its number.
ghost use Rattle.std.specs.Prelude.{◌≡◌, ◌≤◌, [], OnOk, OnErr, None, slice_get};
ghost use Rattle.std.specs.Borrow.{sem};
ghost use Rattle.std.specs.BTreeMap.{insert_entry, is_at};
ghost use Rattle.std.specs.Map.{keys_of, lookup, remove_entry};
ghost use Rattle.std.specs.List.Sorted.{IsStrictlySortedBy};
ghost use Rattle.std.specs.Option.{option_copied, option_copied_mut, option_map};
ghost use Rattle.std.specs.Ordering.{nat_cmp};
ghost use Rattle.fan_slots.specs.Lends.{lends_value};

use super::places::Places;
use fan_io::NoMemory;
use slab::Slab;
use std::alloc::Global;
use std::marker::Model;

/// Values by their numbers, with room ahead.
///
/// Contracts see the list of its entries, each a number with its value, in the order of the numbers, and its
/// `spare`: how many more [`Slots::insert_reserved`] can take now.
#[derive(Drop)]
pub struct Slots<V> {
    slots: Slab<V>,
    // The slot of each value by its number.
    places: Places,
}

impl<V> Model for Slots<V> {
    ghost use Rattle.std.specs.Prelude.{◌-◌, min};
    ghost use Rattle.slab.specs.Slab.{slab_len};
    ghost use Rattle.fan_slots.specs.SlotsState.{SlotsState};
    ghost use Rattle.fan_slots.specs.Placed.{ArePlaced, in_slots};

    ghost Value = { SlotsState V };

    ghost view = { λ s. record {
      entries = in_slots s.slots s.places.entries;
      spare = min s.places.spare (s.slots.capacity - slab_len s.slots);
    } };

    ghost invariant = { λ s. ArePlaced s.slots s.places.entries };
}

impl<V: Drop> Slots<V> {
    /// No values. Allocates nothing.
    pub fn new(alloc: Global) -> Slots<V>
        ensures entries { result.entries ≡ [] }
    {
        Slots {
            slots: Slab::new(alloc),
            places: Places::new(alloc),
        }
    }

    /// The least number; None exactly if there is no value.
    pub fn first(&self) -> Option<u32>
        ensures least { result ≡ option_map (λ entry. entry.0) (slice_get self.now.entries 0) }
        ensures sorted { IsStrictlySortedBy nat_cmp (keys_of self.now.entries) }
    {
        self.places.first()
    }

    /// The value with a number; None exactly if there is none.
    pub fn get(&self, number: u32) -> Option<&V>
        ensures { option_copied result ≡ lookup (is_at (nat_cmp number)) self.now.entries }
    {
        let slot = self.places.get(number)?;
        self.slots.get(slot)
    }

    /// The value with a number, to write to; None exactly if there is none. Allocates nothing.
    pub fn get_mut(&mut self, number: u32) -> Option<&mut V>
        ensures* writes_back { sem 𝓛 (lends_value V.row self.entry number result) }
        ensures value { option_copied_mut result
            ≡ lookup (is_at (nat_cmp number)) self.old.entries }
    {
        let slot = self.places.find(number)?;
        let Some(value) = self.slots.get_mut(slot) else {
            unreachable!();
        };
        Some(value)
    }

    /// Makes room for one more, if there is none. Only this allocates.
    ///
    /// # Errors
    /// `NoMemory` if there was no room and no memory was found for it.
    pub fn reserve(&mut self) -> Result<(), NoMemory>
        ensures room { OnOk result (1 ≤ self.new.spare) }
        ensures same { self.new.entries ≡ self.old.entries }
        ensures full { OnErr result (self.old.spare ≡ 0) }
    {
        self.slots.reserve(1)?;
        self.places.reserve()?;
        Ok(())
    }

    /// Puts a value whose number is new into the room that was made. Allocates nothing.
    pub fn insert_reserved(&mut self, number: u32, value: V)
        requires room { 1 ≤ self.old.spare }
        requires absent { lookup (is_at (nat_cmp number)) self.old.entries ≡ None }
        ensures entries { self.new.entries
            ≡ insert_entry nat_cmp self.old.entries number value }
    {
        let slot = self.slots.insert_reserved(value);
        self.places.insert_reserved(number, slot);
    }

    /// Takes away the value with a number; None exactly if there is none. Allocates nothing.
    pub fn remove(&mut self, number: u32) -> Option<V>
        ensures value { result ≡ lookup (is_at (nat_cmp number)) self.old.entries }
        ensures entries { self.new.entries
            ≡ remove_entry (is_at (nat_cmp number)) self.old.entries }
    {
        let slot = self.places.remove(number)?;
        self.slots.try_remove(slot)
    }
}
