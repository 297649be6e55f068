// The tree itself: its inodes, its directory entries, and the number that the next object gets.
ghost use Rattle.std.specs.Prelude.{◌≡◌, ◌+◌, ◌≤◌, IfErr, IfNone, IfOk, IfSome, None, Ok, OnErr, OnOk, Some, option_map};
ghost use Rattle.fan_bits.specs.Places.{IsObject};
ghost use Rattle.fan_tree.specs.Steps.{CanAdd, free_place};
ghost use Rattle.fan_tree.specs.Tree.{IsRefused, about_of, drawn, entry_of, initial_tree, inode_of, made, made_fs, max_object, root_of, with_entry, with_fs};
ghost use Rattle.fan_tree.specs.Whole.{IsTree};

use super::inode::{About, TreeRefused};
use super::inodes::Inodes;
use super::names::Names;
use fan_bits::Errno;
use fan_io::NoMemory;
use std::alloc::Global;
use std::marker::Model;

/// The largest object number.
const MAX_OBJECT: u32 = 65_535;

/// All files and directories.
#[derive(Drop)]
pub struct Tree {
    pub(crate) inodes: Inodes,
    pub(crate) names: Names,
    pub(crate) next: u32,
}

impl Model for Tree {
    ghost use Rattle.fan_tree.specs.Tree.{TreeState};
    ghost use Rattle.fan_tree.specs.Whole.{IsTree};

    ghost Value = { TreeState };

    ghost view = { λ t.
        record { inodes = t.inodes.inodes; names = t.names; next = t.next } };

    ghost invariant = { λ t. IsTree
        (record { inodes = t.inodes.inodes; names = t.names; next = t.next }) };
}

impl Tree {
    /// Filesystem 1 with its root directory, 2. Object 3 is the mount at `/`.
    pub fn new(alloc: Global) -> Tree
        ensures initial { result ≡ initial_tree }
        ensures whole { IsTree result }
    {
        Tree {
            inodes: Inodes::new(alloc),
            names: Names::new(alloc),
            next: 4,
        }
    }

    /// The filesystem of an inode, and whether it is a directory; None exactly if there is no such inode.
    pub fn about(&self, inode: u32) -> Option<About>
        ensures found { result ≡ option_map about_of (inode_of self.now inode) }
        ensures whole { IsTree self.now }
    {
        self.inodes.get(inode)
    }

    /// The number of the inode that a name leads to in a directory; None exactly if the directory has no such
    /// name.
    pub fn child(&self, dir: u32, name: &[u8]) -> Option<u32>
        ensures found { result
            ≡ option_map (λ inode. inode.number) (entry_of self.now dir name.now) }
        ensures whole { IsTree self.now }
    {
        self.names.get(dir, name)
    }

    /// The number of the root of a filesystem; None exactly if there is no such filesystem.
    pub fn root(&self, fs: u32) -> Option<u32>
        ensures found { result ≡ option_map (λ inode. inode.number) (root_of self.now fs) }
        ensures whole { IsTree self.now }
    {
        let root = self.inodes.get(fs.checked_add(1)?)?;
        if root.fs != fs {
            return None;
        }
        Some(fs + 1)
    }

    /// The number that `draw` gives next; None exactly if none is left.
    #[tactic(auto, unfolding(crate::specs::Tree::drawn))]
    pub fn next_number(&self) -> Option<u32>
        ensures next { result ≡ option_map (λ draw. draw.0) (drawn self.now) }
        ensures object { IfSome result IsObject }
    {
        if self.next > MAX_OBJECT {
            return None;
        }
        Some(self.next)
    }

    /// Draws the next object number; None exactly if 65,535 was the last.
    #[tactic(auto, unfolding(crate::specs::Tree::drawn))]
    pub fn draw(&mut self) -> Option<u32>
        ensures some { IfSome result (λ number. drawn self.old ≡ Some (number, self.new)) }
        ensures none { IfNone result (drawn self.old ≡ None) }
        ensures kept { IfNone result (self.new ≡ self.old) }
        ensures whole { IsTree self.new }
    {
        if self.next > MAX_OBJECT {
            return None;
        }
        let number = self.next;
        self.next += 1;
        Some(number)
    }

    /// Makes a file or a directory in a directory, and gives its number. In this order: ENOENT exactly if
    /// `dir` is no inode, ENOTDIR if it is a file, EEXIST if it has the name, ENOSPC if no number is left.
    pub fn make(&mut self, dir: u32, name: &[u8], is_dir: bool) -> Result<u32, TreeRefused>
        ensures ok { IfOk result (λ number.
            made self.old dir name.now is_dir ≡ Ok (number, self.new)) }
        ensures refused { IfErr result (λ why. IsRefused why (made self.old dir name.now is_dir)) }
        ensures err { OnErr result (self.new ≡ self.old) }
        ensures whole { IsTree self.new }
    {
        let fs = self.free_place(dir, name)?;
        let number = self.next;
        self.add(dir, name, About { fs, dir: is_dir })?;
        Ok(number)
    }

    /// Makes a filesystem and its root directory, and gives the number of the filesystem; its root has the
    /// next one. ENOSPC exactly unless two numbers are left.
    #[tactic(auto, unfolding(crate::specs::Tree::made_fs))]
    pub fn make_fs(&mut self) -> Result<u32, TreeRefused>
        ensures ok { IfOk result (λ number. made_fs self.old ≡ Ok (number, self.new)) }
        ensures refused { IfErr result (λ why. IsRefused why (made_fs self.old)) }
        ensures err { OnErr result (self.new ≡ self.old) }
        ensures whole { IsTree self.new }
    {
        if self.next + 1 > MAX_OBJECT {
            return Err(TreeRefused::No(Errno::Enospc));
        }
        let fs = self.next;
        self.add_fs()?;
        Ok(fs)
    }

    // The filesystem of a directory in which one entry more can be made with this name.
    #[tactic(auto, unfolding(crate::specs::Steps::free_place))]
    fn free_place(&self, dir: u32, name: &[u8]) -> Result<u32, Errno>
        ensures place { free_place self.now dir name.now ≡ result }
        ensures whole { IsTree self.now }
    {
        let Some(parent) = self.about(dir) else {
            return Err(Errno::Enoent);
        };
        if !parent.dir {
            return Err(Errno::Enotdir);
        }
        if self.child(dir, name).is_some() {
            return Err(Errno::Eexist);
        }
        if self.next > MAX_OBJECT {
            return Err(Errno::Enospc);
        }
        Ok(parent.fs)
    }

    // Adds an inode, which gets the next number, and the entry that leads to it.
    fn add(&mut self, dir: u32, name: &[u8], about: About) -> Result<(), NoMemory>
        requires { CanAdd self.old dir name.now about.fs }
        ensures ok { OnOk result (self.new ≡ with_entry self.old dir name.now about) }
        ensures err { OnErr result (self.new ≡ self.old) }
        ensures whole { IsTree self.new }
    {
        self.inodes.reserve(self.next)?;
        self.names.push(dir, name, self.next)?;
        self.inodes.insert_reserved(self.next, about);
        self.next += 1;
        Ok(())
    }

    // Adds a root directory, whose filesystem gets the next number, and it the one after that.
    fn add_fs(&mut self) -> Result<(), NoMemory>
        requires { self.old.next + 1 ≤ max_object }
        ensures ok { OnOk result (self.new ≡ with_fs self.old) }
        ensures err { OnErr result (self.new ≡ self.old) }
        ensures whole { IsTree self.new }
    {
        let fs = self.next;
        self.inodes.reserve(fs + 1)?;
        self.inodes.insert_reserved(fs + 1, About { fs, dir: true });
        self.next += 2;
        Ok(())
    }
}
