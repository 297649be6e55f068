//! An ordered map with room ahead: where room was made, an insert cannot fail.
//!
//! A [`Map`] is std's `BTreeMap` beside one entry that may wait outside it. [`Map::reserve`] makes
//! room and alone allocates; [`Map::insert_reserved`] then uses that room and cannot fail. So a change
//! of several maps reserves in each of them first, and either gives up with nothing changed or goes
//! through whole:
//!
//! ```
//! fn note(by_name: &mut Map<u32, u32>, by_place: &mut Map<u32, u32>, name: u32, place: u32)
//!     -> Result<(), AllocError>
//! {
//!     by_name.reserve()?;
//!     by_place.reserve()?;
//!     by_name.insert_reserved(name, place);
//!     by_place.insert_reserved(place, name);
//!     Ok(())
//! }
//! ```
#![tactic(auto)]

mod changes;
pub mod counts;
mod finds;
mod map;
#[cfg(test)]
mod tests;
mod walk;

pub use map::Map;
pub use walk::Walk;
