// Changes of a map: room, entries that come and go, and other values.
ghost use Rattle.std.specs.Prelude.{◌≡◌, ◌+◌, ◌≤◌, ◌&&◌, OnOk, OnErr, None, Some, if◌then◌else◌, is_some};
ghost use Rattle.std.specs.BTreeMap.{insert_entry, is_at};
ghost use Rattle.std.specs.Map.{lookup, remove_entry, set_value};

use super::finds::is_held;
use super::map::Map;
use std::alloc::{AllocError, AllocFailed};
use std::collections::BTreeMap;
use std::mem;

// Puts another value at a key of the rows, and gives back the one that was there.
fn replace_row<K: Ord, V: Drop>(rows: &mut BTreeMap<K, V>, key: &K, value: V) -> Option<V>
    ensures old { result ≡ lookup (is_at (K.cmp key.now)) rows.old.entries }
    ensures entries { rows.new.entries ≡ set_value (is_at (K.cmp key.now)) rows.old.entries value }
{
    match rows.get_mut(key) {
        Some(place) => Some(mem::replace(place, value)),
        None => None,
    }
}

impl<K: Ord + Drop, V: Drop> Map<K, V> {
    /// Makes room for one entry more, if there is none. Only this takes memory.
    ///
    /// # Errors
    /// `AllocError` if there was no room and no memory was found for it.
    pub fn reserve(&mut self) -> Result<(), AllocError>
        ensures room { OnOk result (1 ≤ self.new.spare) }
        ensures same { self.new.entries ≡ self.old.entries }
        ensures kept { self.old.spare ≤ self.new.spare }
        ensures full { OnErr result (self.old.spare ≡ 0) }
    {
        match self.held.take() {
            Some((key, value)) => match self.rows.insert(key, value) {
                Ok(_) => Ok(()),
                Err(AllocFailed { value: entry }) => {
                    self.held = Some(entry);
                    Err(AllocError)
                }
            },
            None => Ok(()),
        }
    }

    /// Puts an entry whose key is new into the room that was made. Takes no memory.
    pub fn insert_reserved(&mut self, key: K, value: V)
        requires spare { 1 ≤ self.old.spare }
        requires absent { lookup (is_at (K.cmp key)) self.old.entries ≡ None }
        ensures entries { self.new.entries ≡ insert_entry K.cmp self.old.entries key value }
        ensures found { (q : K) → lookup (is_at (K.cmp q)) self.new.entries
            ≡ (if is_at (K.cmp q) key then Some value
            else lookup (is_at (K.cmp q)) self.old.entries) }
        ensures used { self.new.spare + 1 ≡ self.old.spare }
    {
        self.held = Some((key, value));
    }

    /// Puts another value at a key, and gives back the one that was there. Without an entry at this
    /// key nothing changes. Takes no memory.
    pub fn replace(&mut self, key: &K, value: V) -> Option<V>
        ensures old { result ≡ lookup (is_at (K.cmp key.now)) self.old.entries }
        ensures entries { self.new.entries
            ≡ set_value (is_at (K.cmp key.now)) self.old.entries value }
        ensures found { (q : K) → lookup (is_at (K.cmp q)) self.new.entries
            ≡ (if is_at (K.cmp q) key.now && is_some (lookup (is_at (K.cmp key.now)) self.old.entries)
            then Some value else lookup (is_at (K.cmp q)) self.old.entries) }
        ensures spare { self.new.spare ≡ self.old.spare }
    {
        if !is_held(&self.held, key) {
            return replace_row(&mut self.rows, key, value);
        }
        match self.held.take() {
            Some((own, old)) => {
                self.held = Some((own, value));
                Some(old)
            }
            None => unreachable!(),
        }
    }

    /// Takes away the entry with a key, and gives back its value. Takes no memory.
    pub fn remove(&mut self, key: &K) -> Option<V>
        ensures value { result ≡ lookup (is_at (K.cmp key.now)) self.old.entries }
        ensures entries { self.new.entries ≡ remove_entry (is_at (K.cmp key.now)) self.old.entries }
        ensures found { (q : K) → lookup (is_at (K.cmp q)) self.new.entries
            ≡ (if is_at (K.cmp q) key.now then None
            else lookup (is_at (K.cmp q)) self.old.entries) }
        ensures spare { self.old.spare ≤ self.new.spare }
    {
        if !is_held(&self.held, key) {
            return self.rows.remove(key);
        }
        match self.held.take() {
            Some((_, value)) => Some(value),
            None => unreachable!(),
        }
    }
}
