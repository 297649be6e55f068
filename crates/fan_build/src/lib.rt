//! A changed list of marks as new rows, which share what the change leaves alone.
//!
//! The rows that stand are never written again: whoever reads from the old root goes on reading the
//! old list. What is no longer reached from the new root is handed to `retire`.
//!
//! ```rust
//! let needed = rows_needed(&mut rows, root, &change); // so many free rows have to be there
//! let built = publish_rows(&mut rows, root, &change);
//! let connectors = RowConnectors::new(rows, built.root); // the marks after the change
//! ```
//!
//! A change of many objects can also be made object by object, with `rows_needed_on` and
//! `publish_on`, so that the marks on other objects need not be walked; `object_by_object` says that
//! the list is then the changed one.
//!
//! How many rows a change takes, and what it leaves of the rows that were reached, is defined in
//! `specs/`.
#![tactic(auto)]

mod below;
mod chain;
mod edit;
mod effect;
mod index;
mod laws;
mod made;
mod needed;
mod new_rows;
mod publish;
#[cfg(test)]
mod tests;
mod writing;

pub use laws::object_by_object;
pub use needed::{rows_needed, rows_needed_on};
pub use new_rows::NewRows;
pub use publish::{Built, publish_on, publish_rows};
