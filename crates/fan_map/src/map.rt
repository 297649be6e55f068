// The map: rows in a tree, and an entry that may be held beside them.
ghost use Rattle.std.specs.Prelude.{◌≡◌, ◌==◌, IsTrue, ◌↔◌, length, []};
ghost use Rattle.std.specs.List.Sorted.{IsStrictlySortedBy};
ghost use Rattle.std.specs.Map.{keys_of};

use std::alloc::Global;
use std::collections::BTreeMap;
use std::marker::Model;

/// A map from keys in order to values, which can make room for an entry before it comes.
///
/// Contracts see the list of its entries, in the order of their keys, and its `spare`: how many
/// entries [`Map::insert_reserved`] can take now. No two entries have the same key.
#[derive(Drop)]
pub struct Map<K: Ord, V> {
    pub(crate) rows: BTreeMap<K, V>,
    pub(crate) held: Option<(K, V)>,
}

impl<K: Ord, V> Model for Map<K, V> {
    ghost use Rattle.fan_map.specs.MapState.{MapState};
    ghost use Rattle.fan_map.specs.Joined.{IsMap, joined, room};

    ghost Value = { MapState K V };

    ghost view = { λ m. record { entries = joined K.cmp m.rows.entries m.held; spare = room m.held } };

    ghost invariant = { λ m. IsMap K.cmp m.rows.entries m.held };
}

impl<K: Ord, V> Map<K, V> {
    /// A map with no entry, and with room for one. Takes no memory.
    pub fn new(alloc: Global) -> Map<K, V>
        ensures entries { result.entries ≡ [] }
        ensures spare { result.spare ≡ 1 }
    {
        Map {
            rows: BTreeMap::new(alloc),
            held: None,
        }
    }

    /// How many entries there are.
    pub fn len(&self) -> usize
        ensures count { result ≡ length self.now.entries }
        ensures sorted { IsStrictlySortedBy K.cmp (keys_of self.now.entries) }
    {
        let rows = self.rows.len();
        match &self.held {
            Some(_) => rows + 1,
            None => rows,
        }
    }

    /// Whether there is no entry.
    pub fn is_empty(&self) -> bool
        ensures { IsTrue result ↔ (self.now.entries ≡ []) }
    {
        self.len() == 0
    }
}
