//! The file tree: inodes of filesystems, the directory entries that lead to them, and one sequence of object
//! numbers.
//!
//!     let mut tree = Tree::new(alloc);
//!     let dir = tree.make(2, b"etc".as_slice(), true)?; // the root of filesystem 1 is inode 2
//!     let file = tree.make(dir, b"motd".as_slice(), false)?;
//!     tree.child(dir, b"motd".as_slice()) // Some(file)
//!     tree.rename(dir, b"motd".as_slice(), 2, b"issue".as_slice())?; // Ok(file)
//!     tree.remove(2, b"issue".as_slice())? // Ok(file), which is never given again
#![tactic(auto)]

mod cells;
mod changes;
mod counts;
mod dir;
mod entries;
mod entry;
mod inode;
mod inodes;
mod laws;
mod names;
mod spilled;
mod table;
mod tag;
#[cfg(test)]
mod tests;
mod tree;

pub use inode::{About, TreeRefused};
pub use laws::{changes_keep_trees, names_are_unique, ways_up_are_told};
pub use tree::Tree;
