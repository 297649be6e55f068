//! Marks as rows of four words, and the walk of them.
//!
//! Word i of row r stands at `4 r + i`. A picture is a tree of index rows, by the eight base-four
//! digits of an object's number, with the rows of each object's marks below it:
//!
//! ```rust
//! let mut connectors = RowConnectors::new(cells, root);
//! let first = connectors.next(4, Order::START); // the first mark on object 4
//! let second = first.and_then(|mark| connectors.next(4, mark.order())); // and the one after it
//! ```
//!
//! What words picture, and how many rows that takes, is defined in `specs/`; `laws` says that it is
//! one list of marks, by one tree, and that words elsewhere do not matter.
#![tactic(auto)]

mod cells;
mod laws;
mod mark_row;
mod rows;
#[cfg(test)]
mod tests;
mod walk;

pub use cells::Cells;
pub use laws::{a_mark_comes_back, few_rows, frame, one_list, one_tree};
pub use mark_row::MarkRow;
pub use rows::RowConnectors;
pub use walk::{connector, first_above, mark_at, row_below};
