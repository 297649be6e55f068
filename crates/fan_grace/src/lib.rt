//! A table of marks in rows, whose sections show the marks as they stood when they were entered.
//!
//! A change writes new rows and takes a new root; no row that was reached is written again. So who
//! entered a section goes on walking the marks of its root, whatever changes follow:
//!
//! ```rust
//! let section = table.enter();
//! table.change(&change)?;
//! let mark = table.next(&section, object, Order::START); // as the marks stood before the change
//! table.leave(section);
//! ```
#![tactic(auto)]

mod cells;
mod changing;
mod hints;
mod in_turn;
mod made;
mod noted;
mod section;
mod stored;
mod table;
#[cfg(test)]
mod tests;
mod walk;

pub use cells::TableCells;
pub use section::Section;
pub use table::Table;
