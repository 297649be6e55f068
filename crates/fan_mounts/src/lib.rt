//! Mounts of filesystems in the file tree, and what a path reaches through them.
//!
//!     let mut tree = Tree::new(alloc);
//!     let mut mounts = Mounts::new(alloc)?;
//!     tree.make(2, b"mnt".as_slice(), true)?;
//!     let fs = tree.make_fs()?;
//!     let at = mounts.place(&tree, b"/mnt".as_slice())?; // inode 4, through mount 3
//!     mounts.mount(&mut tree, fs, at)?;
//!     mounts.place(&tree, b"/mnt".as_slice()) // now the root of the new mount, which has no parent
#![tactic(auto)]

mod index;
mod laws;
mod mount;
mod mounts;
mod path;
#[cfg(test)]
mod tests;
mod walk;

pub use laws::{a_place_without_parent_is_a_root, mounts_stay_mounts};
pub use mount::{Mount, MountPoint};
pub use mounts::Mounts;
pub use path::split_last;
