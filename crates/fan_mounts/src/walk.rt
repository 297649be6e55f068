// The steps of a walk: the root of a mount, an inode as a mount shows it, and the entry of a name.
ghost use Rattle.std.specs.Prelude.{◌≡◌, None, Ok, is_some, true};
ghost use Rattle.fan_mounts.specs.Reaches.{crossed, entered, shown};
ghost use Rattle.fan_tree.specs.Tree.{inode_of, root_of};
ghost use Rattle.fan_tree.specs.Whole.{IsTree};

use super::mounts::Mounts;
use fan_bits::{Errno, Place};
use fan_tree::Tree;

/// An inode as a mount shows it, reached from a directory or, as the root of the mount, from none; ENOENT
/// exactly if there is no such inode.
pub(crate) fn shown(
    tree: &Tree,
    mount: u32,
    parent: Option<u32>,
    inode: u32,
) -> Result<Place, Errno>
    ensures { result ≡ shown mount parent (inode_of tree.now inode) }
{
    match tree.about(inode) {
        Some(about) => Ok(Place {
            mount,
            fs: about.fs,
            inode,
            parent,
            dir: about.dir,
        }),
        None => Err(Errno::Enoent),
    }
}

/// The root of a mount, which shows that of a filesystem; ENOENT exactly if there is no such filesystem.
pub(crate) fn root(tree: &Tree, mount: u32, fs: u32) -> Result<Place, Errno>
    ensures root { result ≡ shown mount None (root_of tree.now fs) }
    ensures whole { IsTree tree.now }
{
    match tree.root(fs) {
        Some(inode) => shown(tree, mount, None, inode),
        None => Err(Errno::Enoent),
    }
}

/// An inode as a walk comes to it from a directory: the root of the mount that stands there, if one does.
pub(crate) fn crossed(mounts: &Mounts, tree: &Tree, dir: Place, inode: u32) -> Result<Place, Errno>
    requires { is_some (inode_of tree.now inode) ≡ true }
    ensures { result ≡ crossed tree.now mounts.now dir (inode_of tree.now inode) }
{
    match mounts.mount_at(dir.mount, inode) {
        Some(other) => root(tree, other.number, other.fs),
        None => shown(tree, dir.mount, Some(dir.inode), inode),
    }
}

/// What a name reaches from a place: ENOTDIR exactly if this is a file, else ENOENT exactly if it has no such
/// entry.
pub(crate) fn entered(
    mounts: &Mounts,
    tree: &Tree,
    place: Place,
    name: &[u8],
) -> Result<Place, Errno>
    ensures { result ≡ entered tree.now mounts.now (Ok place) name.now }
{
    if !place.dir {
        return Err(Errno::Enotdir);
    }
    match tree.child(place.inode, name) {
        Some(inode) => crossed(mounts, tree, place, inode),
        None => Err(Errno::Enoent),
    }
}
