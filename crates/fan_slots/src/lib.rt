//! Values by number, each in a slot of a slab: found in logarithmic time, and changed in their places.
//!
//! A [`Slots`] is the kit's `Slab` beside a map from numbers to its slots. As with fan_map's `Map`,
//! [`Slots::reserve`] makes room and alone allocates, and [`Slots::insert_reserved`] cannot fail then.
#![tactic(auto)]

mod places;
mod slots;
#[cfg(test)]
mod tests;

pub use slots::Slots;
