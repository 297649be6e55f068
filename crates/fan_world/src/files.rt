// The file tree with its mounts. What is refused changes nothing, and so does want of memory.
ghost use Rattle.std.specs.Prelude.{◌≡◌, ℕ, List, IfErr, IfOk, IsOk, OnErr, OnOk, Ok, Err, is_some, true};
ghost use Rattle.fan_bits.specs.Places.{IsPlace};
ghost use Rattle.fan_mounts.specs.Mounts.{initial_mounts, mount_of, mounted, stands_on, unmounted};
ghost use Rattle.fan_mounts.specs.Reaches.{Reaches, place_of};
ghost use Rattle.fan_tree.specs.Changes.{removed, renamed};
ghost use Rattle.fan_tree.specs.Tree.{IsRefused, TreeState, initial_tree, made, made_fs, root_of};

use fan_bits::{Errno, Place};
use fan_io::NoMemory;
use fan_mounts::Mounts;
use fan_tree::{Tree, TreeRefused};
use std::alloc::Global;

/// The file tree and its mounts.
#[derive(Drop)]
pub(crate) struct Files {
    tree: Tree,
    mounts: Mounts,
}

impl Files {
    /// A filesystem with its root, mounted at `/`.
    pub(crate) fn new(alloc: Global) -> Result<Files, NoMemory>
        ensures tree { IfOk result (λ files. files.tree ≡ initial_tree) }
        ensures mounts { IfOk result (λ files. files.mounts ≡ initial_mounts) }
    {
        Ok(Files {
            tree: Tree::new(alloc),
            mounts: Mounts::new(alloc)?,
        })
    }

    /// What a path reaches; ENOENT, ENOTDIR.
    pub(crate) fn place(&self, path: &[u8]) -> Result<Place, Errno>
        ensures place { result ≡ place_of self.now.tree self.now.mounts path.now }
        ensures within { IfOk result IsPlace }
        ensures mounted { IfOk result (λ place.
            is_some (mount_of self.now.mounts place.mount) ≡ true) }
    {
        self.mounts.place(&self.tree, path)
    }

    /// Whether some mount stands on a directory, whichever mount shows it.
    pub(crate) fn stands_on(&self, inode: u32) -> bool
        ensures { result ≡ stands_on self.now.mounts inode }
    {
        self.mounts.stands_on(inode)
    }

    /// Whether there is a filesystem with a number.
    pub(crate) fn has_fs(&self, fs: u32) -> bool
        ensures { result ≡ is_some (root_of self.now.tree fs) }
    {
        self.tree.root(fs).is_some()
    }

    /// Makes a file or a directory in a directory, and gives its number: ENOENT, ENOTDIR, EEXIST, ENOSPC.
    pub(crate) fn make_entry(
        &mut self,
        dir: u32,
        name: &[u8],
        is_dir: bool,
    ) -> Result<Result<u32, Errno>, NoMemory>
        ensures made { IfOk result (λ done. IfOk done (λ inode.
            made self.old.tree dir name.now is_dir ≡ Ok (inode, self.new.tree))) }
        ensures refused { IfOk result (λ done. IfErr done (λ errno.
            made self.old.tree dir name.now is_dir ≡ Err errno)) }
        ensures same { IfOk result (λ done. OnErr done (self.new ≡ self.old)) }
        ensures mounts { self.new.mounts ≡ self.old.mounts }
        ensures err { OnErr result (self.new ≡ self.old) }
    {
        settled(self.tree.make(dir, name, is_dir))
    }

    /// The number of the file or empty directory that `remove` would remove: ENOENT, ENOTEMPTY.
    /// Nothing changes.
    #[tactic(auto, unfolding(fan_tree::specs::Changes::removed))]
    pub(crate) fn removable(&self, dir: u32, name: &[u8]) -> Result<u32, Errno>
        ensures removed { IfOk result (λ inode. (left : TreeState)
            × (removed self.now.tree dir name.now ≡ Ok (inode, left))) }
        ensures refused { IfErr result (λ errno. removed self.now.tree dir name.now ≡ Err errno) }
    {
        let Some(inode) = self.tree.child(dir, name) else {
            return Err(Errno::Enoent);
        };
        if self.tree.has_entries(inode) {
            return Err(Errno::Enotempty);
        }
        Ok(inode)
    }

    /// Removes a file or an empty directory by its name in a directory, and gives its number: ENOENT,
    /// ENOTEMPTY. Allocates nothing.
    pub(crate) fn remove(&mut self, dir: u32, name: &[u8]) -> Result<u32, Errno>
        ensures removed { IfOk result (λ inode.
            removed self.old.tree dir name.now ≡ Ok (inode, self.new.tree)) }
        ensures refused { IfErr result (λ errno. removed self.old.tree dir name.now ≡ Err errno) }
        ensures mounts { self.new.mounts ≡ self.old.mounts }
        ensures err { OnErr result (self.new ≡ self.old) }
    {
        self.tree.remove(dir, name)
    }

    /// Renames a file or a directory, by its name in a directory, to a new name in a directory, and gives its
    /// number: ENOENT, ENOTDIR, EXDEV, EEXIST, EINVAL.
    pub(crate) fn rename(
        &mut self,
        dir: u32,
        name: &[u8],
        to: u32,
        new_name: &[u8],
    ) -> Result<Result<u32, Errno>, NoMemory>
        ensures renamed { IfOk result (λ done. IfOk done (λ inode.
            renamed self.old.tree dir name.now to new_name.now ≡ Ok (inode, self.new.tree))) }
        ensures refused { IfOk result (λ done. IfErr done (λ errno.
            renamed self.old.tree dir name.now to new_name.now ≡ Err errno)) }
        ensures same { IfOk result (λ done. OnErr done (self.new ≡ self.old)) }
        ensures mounts { self.new.mounts ≡ self.old.mounts }
        ensures err { OnErr result (self.new ≡ self.old) }
    {
        settled(self.tree.rename(dir, name, to, new_name))
    }

    /// Makes a filesystem with its root, and gives its number: ENOSPC.
    pub(crate) fn make_fs(&mut self) -> Result<Result<u32, Errno>, NoMemory>
        ensures made { IfOk result (λ done. IfOk done (λ fs.
            made_fs self.old.tree ≡ Ok (fs, self.new.tree))) }
        ensures refused { IfOk result (λ done. IfErr done (λ errno.
            made_fs self.old.tree ≡ Err errno)) }
        ensures same { IfOk result (λ done. OnErr done (self.new ≡ self.old)) }
        ensures mounts { self.new.mounts ≡ self.old.mounts }
        ensures err { OnErr result (self.new ≡ self.old) }
    {
        settled(self.tree.make_fs())
    }

    /// Mounts a filesystem on a place that some path reaches, and gives the number of the mount: ENOENT,
    /// ENOTDIR, EBUSY, ENOSPC.
    pub(crate) fn mount(&mut self, fs: u32, at: Place) -> Result<Result<u32, Errno>, NoMemory>
        requires reached { (path : List ℕ) × Reaches self.old.tree self.old.mounts path at }
        ensures mounted { IfOk result (λ done. IfOk done (λ mount.
            mounted self.old.tree self.old.mounts fs at
            ≡ Ok (mount, self.new.tree, self.new.mounts))) }
        ensures refused { IfOk result (λ done. IfErr done (λ errno.
            mounted self.old.tree self.old.mounts fs at ≡ Err errno)) }
        ensures same { IfOk result (λ done. OnErr done (self.new ≡ self.old)) }
        ensures err { OnErr result (self.new ≡ self.old) }
    {
        settled(self.mounts.mount(&mut self.tree, fs, at))
    }

    /// Whether `unmount` would take a mount away: EBUSY if not. Nothing changes.
    pub(crate) fn can_unmount(&self, mount: u32) -> Result<(), Errno>
        ensures ok { OnOk result (IsOk (unmounted self.now.mounts mount)) }
        ensures refused { IfErr result (λ errno. unmounted self.now.mounts mount ≡ Err errno) }
    {
        self.mounts.can_umount(mount)
    }

    /// Takes a mount away: EBUSY for the one at `/`, and if a mount stands on a directory of it. Allocates
    /// nothing.
    pub(crate) fn unmount(&mut self, mount: u32) -> Result<(), Errno>
        requires there { is_some (mount_of self.old.mounts mount) ≡ true }
        ensures unmounted { OnOk result (unmounted self.old.mounts mount ≡ Ok self.new.mounts) }
        ensures refused { IfErr result (λ errno. unmounted self.old.mounts mount ≡ Err errno) }
        ensures tree { self.new.tree ≡ self.old.tree }
        ensures err { OnErr result (self.new ≡ self.old) }
    {
        self.mounts.umount(mount)
    }
}

// A change of the tree that was made or refused, and want of memory apart from that.
fn settled(made: Result<u32, TreeRefused>) -> Result<Result<u32, Errno>, NoMemory>
    ensures made { IfOk result (λ done. IfOk done (λ number. made ≡ Ok number)) }
    ensures refused { IfOk result (λ done. IfErr done
        (λ errno. made ≡ Err (TreeRefused.No errno))) }
    ensures err { OnErr result (made ≡ Err TreeRefused.NoMemory) }
{
    match made {
        Ok(number) => Ok(Ok(number)),
        Err(TreeRefused::No(errno)) => Ok(Err(errno)),
        Err(TreeRefused::NoMemory) => Err(NoMemory),
    }
}
