// A walk over the entries of a map in order.
ghost use Rattle.std.specs.Prelude.{◌≡◌, length};
ghost use Rattle.std.specs.Iterator.{at_most};
ghost use Rattle.std.specs.Map.Iter.{TakesFirst, deref_pair};

use std::collections::btree_map::Range;
use std::marker::Model;

/// What is left of the entries of a map, in the order of their keys. Contracts see it as that list.
#[derive(Drop)]
pub struct Walk<'a, K, V> {
    pub(crate) front: Range<'a, K, V>,
    pub(crate) rest: Option<(&'a (K, V), Range<'a, K, V>)>,
}

impl<'a, K, V> Model for Walk<'a, K, V> {
    ghost use Rattle.std.specs.Prelude.{List, ◌++◌};
    ghost use Rattle.fan_map.specs.Joined.{left_after};

    ghost Value = { List (K × V) };

    ghost view = { λ w. w.front ++ left_after w.rest };
}

impl<'a, K, V> Iterator for Walk<'a, K, V> {
    type Item = (&'a K, &'a V);

    ghost next_gives = { TakesFirst deref_pair };

    ghost remaining = { λ s. at_most (length s) };

    fn next(&mut self) -> Option<(&'a K, &'a V)> {
        if let Some(pair) = self.front.next() {
            return Some(pair);
        }
        let (held, back) = self.rest.take()?;
        self.front = back;
        Some((&held.0, &held.1))
    }
}
