// All mounts, and the walk of a path through them.
ghost use Rattle.std.specs.Prelude.{◌≡◌, ℕ, ◌==◌, ◌∷◌, ◌++◌, List, [], count_by, position, IfOk, IfErr, OnOk, OnErr, Ok, Err, None, Some, is_some, true, false};
ghost use Rattle.fan_bits.specs.Places.{IsObject, IsPlace};
ghost use Rattle.fan_mounts.specs.Kept.{AreKept};
ghost use Rattle.fan_mounts.specs.Mounts.{AreMounts, carries, initial_mounts, mount_at, mount_of, mounted, others, root_mount, stands_on, unmounted, with_mount};
ghost use Rattle.fan_mounts.specs.Pairs.{has_number};
ghost use Rattle.fan_mounts.specs.Reaches.{Reaches, place_of, root_place};
ghost use Rattle.fan_tree.specs.Tree.{IsRefused, drawn};
ghost use Rattle.fan_tree.specs.Whole.{IsTree};

use super::index::Index;
use super::mount::{Mount, MountPoint};
use super::walk;
use fan_bits::{Errno, Place};
use fan_io::NoMemory;
use fan_tree::{Tree, TreeRefused};
use std::alloc::Global;
use std::marker::Model;

/// The number of the mount at `/`.
const ROOT_MOUNT: u32 = 3;

/// All mounts of one tree.
#[derive(Drop)]
pub struct Mounts {
    mounts: Vec<Mount>,
    index: Index,
}

impl Model for Mounts {
    ghost use Rattle.std.specs.Prelude.{List};
    ghost use Rattle.fan_mounts.specs.declared.mount.Mount.{Mount};
    ghost use Rattle.fan_mounts.specs.Kept.{AreIndexed};

    ghost Value = { List Mount };

    ghost view = { λ m. m.mounts.items };

    ghost invariant = { λ m. AreIndexed m.mounts.items m.index };
}

impl Mounts {
    /// The mount of filesystem 1 at `/`, with number 3.
    pub fn new(alloc: Global) -> Result<Mounts, NoMemory>
        ensures initial { IfOk result (λ mounts. mounts ≡ initial_mounts) }
        ensures whole { IfOk result AreMounts }
    {
        let mut mounts = Vec::new(alloc);
        mounts.push(Mount {
            number: ROOT_MOUNT,
            fs: 1,
            point: None,
        })?;
        Ok(Mounts {
            mounts,
            index: Index::new(alloc)?,
        })
    }

    /// What a path reaches: the walk begins at the mount at `/`, and crosses to the mount that stands on a
    /// directory as it was reached. ENOENT exactly if an entry is missing, ENOTDIR exactly if a name follows
    /// a file, whichever comes first. The names of the path are what stands between its slashes.
    pub fn place(&self, tree: &Tree, path: &[u8]) -> Result<Place, Errno>
        ensures place { result ≡ place_of tree.now self.now path.now }
        ensures within { IfOk result IsPlace }
        ensures mounted { IfOk result (λ place. is_some (mount_of self.now place.mount) ≡ true) }
    {
        let mut place = self.start(tree)?;
        for name in path
            .split(|byte| *byte == b'/')
            .filter(|name| !name.is_empty())
        {
            place = walk::entered(self, tree, place, name)?;
        }
        Ok(place)
    }

    /// Mounts a filesystem on a place that some path reaches, and gives the number of the mount. In this
    /// order: ENOENT exactly if there is no such filesystem, ENOTDIR if the place is a file, EBUSY if it is
    /// the root of a mount, ENOSPC if no number is left.
    #[tactic(auto, unfolding(crate::specs::Mounts::mounted))]
    pub fn mount(&mut self, tree: &mut Tree, fs: u32, at: Place) -> Result<u32, TreeRefused>
        requires reached { (path : List ℕ) × Reaches tree.old self.old path at }
        ensures ok { IfOk result (λ number.
            mounted tree.old self.old fs at ≡ Ok (number, tree.new, self.new)) }
        ensures refused { IfErr result (λ why. IsRefused why (mounted tree.old self.old fs at)) }
        ensures err { OnErr result (self.new ≡ self.old) }
        ensures tree { OnErr result (tree.new ≡ tree.old) }
    {
        let _ = &self.mounts; // Whatever they show is an object.
        if tree.root(fs).is_none() {
            return Err(TreeRefused::No(Errno::Enoent));
        }
        if !at.dir {
            return Err(TreeRefused::No(Errno::Enotdir));
        }
        if at.parent.is_none() {
            return Err(TreeRefused::No(Errno::Ebusy));
        }
        self.put(tree, fs, at)
    }

    /// Removes a mount. EBUSY exactly for the one at `/`, and if a mount stands on a directory of it.
    #[tactic(auto, unfolding(crate::specs::Mounts::unmounted))]
    pub fn umount(&mut self, mount: u32) -> Result<(), Errno>
        requires { is_some (mount_of self.old mount) ≡ true }
        ensures ok { OnOk result (unmounted self.old mount ≡ Ok self.new) }
        ensures refused { IfErr result (λ why. unmounted self.old mount ≡ Err why) }
        ensures err { OnErr result (self.new ≡ self.old) }
    {
        self.can_umount(mount)?;
        self.remove(mount);
        Ok(())
    }

    /// Whether `umount` would remove a mount: EBUSY exactly if not. Nothing changes.
    #[tactic(auto, unfolding(crate::specs::Mounts::unmounted))]
    pub fn can_umount(&self, mount: u32) -> Result<(), Errno>
        ensures ok { OnOk result (unmounted self.now mount ≡ Ok (others mount self.now)) }
        ensures refused { IfErr result (λ why. unmounted self.now mount ≡ Err why) }
    {
        if mount == ROOT_MOUNT || self.carries(mount) {
            return Err(Errno::Ebusy);
        }
        Ok(())
    }

    /// Whether some mount stands on a directory, whichever mount shows it: rmdir(2) and rename(2) then
    /// refuse it. A search in an index, however many mounts there are.
    pub fn stands_on(&self, inode: u32) -> bool
        ensures { result ≡ stands_on self.now inode }
    {
        self.index.has_dir(inode)
    }

    /// The mount that stands on a directory as another mount shows it.
    pub(crate) fn mount_at(&self, mount: u32, dir: u32) -> Option<Mount>
        ensures { result ≡ mount_at self.now mount dir }
    {
        self.index.at(mount, dir)
    }

    // The root of the mount at `/`.
    fn start(&self, tree: &Tree) -> Result<Place, Errno>
        ensures root { result ≡ root_place tree.now (mount_of self.now root_mount) }
        ensures kept { AreKept self.now }
        ensures whole { IsTree tree.now }
    {
        let _ = &self.mounts;
        walk::root(tree, ROOT_MOUNT, 1)
    }

    // Whether a mount stands on a directory of a mount.
    fn carries(&self, number: u32) -> bool
        ensures { result ≡ carries self.now number }
    {
        self.index.has_mount(number)
    }

    // Draws a number for a mount on a place on which none stands yet.
    fn put(&mut self, tree: &mut Tree, fs: u32, at: Place) -> Result<u32, TreeRefused>
        requires dir { IsObject at.inode }
        requires free { mount_at self.old at.mount at.inode ≡ None }
        ensures ok { IfOk result (λ number.
            with_mount (drawn tree.old) self.old fs at ≡ Ok (number, tree.new, self.new)) }
        ensures refused { IfErr result (λ why.
            IsRefused why (with_mount (drawn tree.old) self.old fs at)) }
        ensures err { OnErr result (self.new ≡ self.old) }
        ensures tree { OnErr result (tree.new ≡ tree.old) }
    {
        let Some(number) = tree.next_number() else {
            return Err(TreeRefused::No(Errno::Enospc));
        };
        let point = MountPoint {
            mount: at.mount,
            dir: at.inode,
        };
        self.push(number, fs, point)?;
        // Drawn only now, since a number that was drawn is not given back.
        tree.draw();
        Ok(number)
    }

    // Adds a mount on a directory on which none stands yet.
    fn push(&mut self, number: u32, fs: u32, point: MountPoint) -> Result<(), NoMemory>
        requires object { IsObject number }
        requires dir { IsObject point.dir }
        requires free { mount_at self.old point.mount point.dir ≡ None }
        ensures ok { OnOk result (self.new
            ≡ self.old ++ record { number = number; fs = fs; point = Some point } ∷ []) }
        ensures err { OnErr result (self.new ≡ self.old) }
    {
        let mount = Mount {
            number,
            fs,
            point: Some(point),
        };
        self.mounts.reserve(1)?;
        self.index.insert(point.mount, point.dir, mount)?;
        self.mounts.push_reserved(mount);
        Ok(())
    }

    // Removes the mount with a number, which is not the one at `/`.
    fn remove(&mut self, number: u32)
        requires { (number == root_mount) ≡ false }
        ensures { self.new ≡ others number self.old }
    {
        let count = self.index.remove_all(&self.mounts, number);
        remove_counted(&mut self.mounts, number, count);
    }
}

// Removes the mounts with a number, of which there are so many.
fn remove_counted(mounts: &mut Vec<Mount>, number: u32, count: usize)
    requires { count ≡ count_by (has_number number) mounts.old.items }
    ensures { mounts.new.items ≡ others number mounts.old.items }
{
    if count == 1 {
        remove_only(mounts, number);
    } else {
        mounts.retain(move |mount| mount.number != number);
    }
}

// Removes the mount with a number, which it alone has.
fn remove_only(mounts: &mut Vec<Mount>, number: u32)
    requires { count_by (has_number number) mounts.old.items ≡ 1 }
    ensures { mounts.new.items ≡ others number mounts.old.items }
{
    if let Some(index) = index_of(mounts, number) {
        mounts.remove(index);
    }
}

// Where the first mount with a number stands.
fn index_of(mounts: &[Mount], number: u32) -> Option<usize>
    ensures { result ≡ position (has_number number) mounts.now }
{
    mounts.iter().position(|mount| mount.number == number)
}
