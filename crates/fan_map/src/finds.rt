// What a map has at a key, and from a key on.
ghost use Rattle.std.specs.Prelude.{◌≡◌, ◌∷◌, ◌++◌, find, filter, is_some, true};
ghost use Rattle.std.specs.BTreeMap.{is_at};
ghost use Rattle.std.specs.BTreeMap.Range.{is_from_start, entries_between};
ghost use Rattle.std.specs.List.Sorted.{IsStrictlySortedBy};
ghost use Rattle.std.specs.Map.{keys_of, lookup};
ghost use Rattle.std.specs.Map.Iter.{ShowsInOrder, deref_pair};
ghost use Rattle.std.specs.Option.{option_copied, option_map};
ghost use Rattle.std.specs.Range.Bound.{bound_map};
ghost use Rattle.std.specs.declared.ops.Bound.TheVariants.{Excluded, Unbounded};
ghost use Rattle.fan_map.specs.Joined.{first_of_two, if_passes, is_held};

use super::map::Map;
use super::walk::Walk;
use std::collections::BTreeMap;
use std::ops::Bound;

// Whether the entry that is held has this key.
pub(crate) fn is_held<K: Ord, V>(held: &Option<(K, V)>, key: &K) -> bool
    ensures { result ≡ is_held K.cmp key.now held.now }
{
    match held {
        Some((own, _)) => key.cmp(own).is_eq(),
        None => false,
    }
}

// Whether a key is within a start.
pub(crate) fn is_from_start<K: Ord>(start: Bound<&K>, key: &K) -> bool
    ensures { result ≡ is_from_start K.cmp (bound_map (λ x. x.now) start.entry) key.now }
{
    match start {
        Bound::Included(first) => first.cmp(key).is_le(),
        Bound::Excluded(before) => before.cmp(key).is_lt(),
        Bound::Unbounded => true,
    }
}

// The first row within a start.
fn first_row<'a, K: Ord, V>(rows: &'a BTreeMap<K, V>, start: Bound<&K>) -> Option<(&'a K, &'a V)>
    ensures { option_map deref_pair result ≡ find
        (λ e. is_from_start K.cmp (bound_map (λ x. x.now) start.entry) e.0) rows.now.entries }
{
    rows.range((start, Bound::Unbounded)).next()
}

// The entry that is held, if it is within a start.
fn held_from<'a, K: Ord, V>(held: &'a Option<(K, V)>, start: Bound<&K>) -> Option<(&'a K, &'a V)>
    ensures { option_map deref_pair result ≡ if_passes
        (λ e. is_from_start K.cmp (bound_map (λ x. x.now) start.entry) e.0) held.now }
{
    let (key, value) = held.as_ref()?;
    if is_from_start(start, key) {
        Some((key, value))
    } else {
        None
    }
}

// The first of two entries.
fn first_of_two<'a, K: Ord, V>(
    row: Option<(&'a K, &'a V)>,
    held: Option<(&'a K, &'a V)>,
) -> Option<(&'a K, &'a V)>
    ensures { option_map deref_pair result ≡ first_of_two K.cmp
        (option_map deref_pair row.entry) (option_map deref_pair held.entry) }
{
    let Some((row_key, row_value)) = row else {
        return held;
    };
    let Some((key, value)) = held else {
        return row;
    };
    if key.cmp(row_key).is_lt() {
        Some((key, value))
    } else {
        Some((row_key, row_value))
    }
}

// A walk over the rows within a start.
fn walk_rows<'a, K: Ord, V>(rows: &'a BTreeMap<K, V>, start: Bound<&K>) -> Walk<'a, K, V>
    ensures rest { result ≡ filter
        (λ e. is_from_start K.cmp (bound_map (λ x. x.now) start.entry) e.0) rows.now.entries }
    ensures runs { ShowsInOrder (deref_pair {K = K} {X = V}) }
{
    Walk {
        front: rows.range((start, Bound::Unbounded)),
        rest: None,
    }
}

// A walk over the rows within a start and before an entry, that entry, and the rows behind it.
fn walk_around<'a, K: Ord, V>(
    rows: &'a BTreeMap<K, V>,
    held: &'a (K, V),
    start: Bound<&K>,
) -> Walk<'a, K, V>
    requires { is_from_start K.cmp (bound_map (λ x. x.now) start) held.now.0 ≡ true }
    ensures rest { result
        ≡ entries_between K.cmp (bound_map (λ x. x.now) start.entry) (Excluded held.now.0)
        rows.now.entries
        ++ held.now ∷ entries_between K.cmp (Excluded held.now.0) Unbounded rows.now.entries }
    ensures runs { ShowsInOrder (deref_pair {K = K} {X = V}) }
{
    let key = &held.0;
    Walk {
        front: rows.range((start, Bound::Excluded(key))),
        rest: Some((held, rows.range((Bound::Excluded(key), Bound::Unbounded)))),
    }
}

impl<K: Ord, V> Map<K, V> {
    /// The value at a key, if an entry has it.
    pub fn get(&self, key: &K) -> Option<&V>
        ensures value { option_copied result ≡ lookup (is_at (K.cmp key.now)) self.now.entries }
        ensures sorted { IsStrictlySortedBy K.cmp (keys_of self.now.entries) }
    {
        if !is_held(&self.held, key) {
            return self.rows.get(key);
        }
        match &self.held {
            Some((_, value)) => Some(value),
            None => unreachable!(),
        }
    }

    /// Whether an entry has a key.
    pub fn contains_key(&self, key: &K) -> bool
        ensures { result ≡ is_some (lookup (is_at (K.cmp key.now)) self.now.entries) }
    {
        self.get(key).is_some()
    }

    /// The first entry within a start: at a key or behind it, or behind it alone, or of all.
    pub fn first_from(&self, start: Bound<&K>) -> Option<(&K, &V)>
        ensures first { option_map deref_pair result ≡ find
            (λ e. is_from_start K.cmp (bound_map (λ x. x.now) start.entry) e.0) self.now.entries }
        ensures sorted { IsStrictlySortedBy K.cmp (keys_of self.now.entries) }
    {
        first_of_two(first_row(&self.rows, start), held_from(&self.held, start))
    }

    /// The entries within a start in order: from a key on, or behind it, or all. One search in the
    /// map for all of them, or three if an entry is held.
    pub fn iter_from(&self, start: Bound<&K>) -> Walk<'_, K, V>
        ensures rest { result ≡ filter
            (λ e. is_from_start K.cmp (bound_map (λ x. x.now) start.entry) e.0) self.now.entries }
        ensures runs { ShowsInOrder (deref_pair {K = K} {X = V}) }
        ensures sorted { IsStrictlySortedBy K.cmp (keys_of self.now.entries) }
    {
        match &self.held {
            Some(held) => {
                if is_from_start(start, &held.0) {
                    walk_around(&self.rows, held, start)
                } else {
                    walk_rows(&self.rows, start)
                }
            }
            None => walk_rows(&self.rows, start),
        }
    }

    /// All entries in order.
    pub fn iter<'a>(&'a self) -> Walk<'a, K, V>
        ensures rest { result ≡ self.now.entries }
        ensures runs { ShowsInOrder (deref_pair {K = K} {X = V}) }
        ensures sorted { IsStrictlySortedBy K.cmp (keys_of self.now.entries) }
    {
        let all: Bound<&'a K> = Bound::Unbounded;
        self.iter_from(all)
    }
}
