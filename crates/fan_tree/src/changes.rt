// What is taken out of a tree, and what is moved in it.
ghost use Rattle.std.specs.Prelude.{◌≡◌, IfErr, IfOk, Ok, Err, OnErr, OnOk};
ghost use Rattle.fan_tree.specs.Ancestors.{lies_within, parent_of};
ghost use Rattle.fan_tree.specs.Changes.{has_entries, removed, renamed, with_moved, without_entry};
ghost use Rattle.fan_tree.specs.Steps.{CanMove, CanTake, movable};
ghost use Rattle.fan_tree.specs.Tree.{IsRefused};
ghost use Rattle.fan_tree.specs.Whole.{IsTree};

use super::inode::TreeRefused;
use super::tree::Tree;
use fan_bits::Errno;
use fan_io::NoMemory;

impl Tree {
    /// Whether an inode is a directory with an entry.
    pub fn has_entries(&self, inode: u32) -> bool
        ensures { result ≡ has_entries self.now inode }
    {
        self.names.has_any(inode)
    }

    /// Removes a file or an empty directory by its name in a directory, and gives its number, which is never
    /// given again. In this order: ENOENT exactly if the directory has no such name, ENOTEMPTY if the name
    /// leads to a directory with an entry. Takes no memory.
    pub fn remove(&mut self, dir: u32, name: &[u8]) -> Result<u32, Errno>
        ensures ok { IfOk result (λ number. removed self.old dir name.now ≡ Ok (number, self.new)) }
        ensures refused { IfErr result (λ why. removed self.old dir name.now ≡ Err why) }
        ensures err { OnErr result (self.new ≡ self.old) }
        ensures whole { IsTree self.new }
    {
        let number = self.removable(dir, name)?;
        self.take(dir, name, number);
        Ok(number)
    }

    /// The directory that has the entry of an inode; None exactly if the number is that of a root, or of no inode.
    pub fn parent(&self, inode: u32) -> Option<u32>
        ensures { result ≡ parent_of self.now inode }
    {
        self.names.parent(inode)
    }

    /// Renames a file or a directory, from a name in one directory to a new name in a directory, and gives its
    /// number, which stays the same. In this order: ENOENT exactly if `dir` has no such name or `to` is no inode,
    /// ENOTDIR if `to` is a file, EXDEV if it is of another filesystem, EEXIST if it has the new name, also as
    /// the name of the same inode, EINVAL if it is the inode or lies below it.
    pub fn rename(
        &mut self,
        dir: u32,
        name: &[u8],
        to: u32,
        new_name: &[u8],
    ) -> Result<u32, TreeRefused>
        ensures ok { IfOk result (λ number.
            renamed self.old dir name.now to new_name.now ≡ Ok (number, self.new)) }
        ensures refused { IfErr result (λ why.
            IsRefused why (renamed self.old dir name.now to new_name.now)) }
        ensures err { OnErr result (self.new ≡ self.old) }
        ensures whole { IsTree self.new }
    {
        let Some(inode) = self.child(dir, name) else {
            return Err(TreeRefused::No(Errno::Enoent));
        };
        let number = self.movable(inode, to, new_name)?;
        self.move_entry(dir, name, number, to, new_name)?;
        Ok(number)
    }

    // The number of the inode that a name leads to, if it can be removed.
    #[tactic(auto, unfolding(crate::specs::Changes::removed))]
    fn removable(&self, dir: u32, name: &[u8]) -> Result<u32, Errno>
        ensures ok { IfOk result (λ number. CanTake self.now dir name.now number) }
        ensures refused { IfErr result (λ why. removed self.now dir name.now ≡ Err why) }
        ensures whole { IsTree self.now }
    {
        let Some(number) = self.child(dir, name) else {
            return Err(Errno::Enoent);
        };
        if self.has_entries(number) {
            return Err(Errno::Enotempty);
        }
        Ok(number)
    }

    // Takes an entry out of its directory, and the inode that it leads to.
    fn take(&mut self, dir: u32, name: &[u8], number: u32)
        requires { CanTake self.old dir name.now number }
        ensures taken { self.new ≡ without_entry self.old dir name.now number }
        ensures whole { IsTree self.new }
    {
        self.names.remove(dir, name, number);
        self.inodes.remove(number);
    }

    // The number of an inode, if its entry can go to a directory under a new name.
    #[tactic(auto, unfolding(crate::specs::Steps::movable))]
    fn movable(&self, number: u32, to: u32, new_name: &[u8]) -> Result<u32, Errno>
        ensures { movable self.now number to new_name.now ≡ result }
    {
        let Some(inode) = self.about(number) else {
            return Err(Errno::Enoent);
        };
        let Some(target) = self.about(to) else {
            return Err(Errno::Enoent);
        };
        if !target.dir {
            return Err(Errno::Enotdir);
        }
        if inode.fs != target.fs {
            return Err(Errno::Exdev);
        }
        if self.child(to, new_name).is_some() {
            return Err(Errno::Eexist);
        }
        if self.lies_within(to, number) {
            return Err(Errno::Einval);
        }
        Ok(number)
    }

    // Whether an inode is a directory or lies below it. Takes as many steps as the inode lies deep.
    #[tactic(auto, unfolding(crate::specs::Ancestors::lies_within))]
    fn lies_within(&self, inode: u32, dir: u32) -> bool
        ensures { result ≡ lies_within self.now inode dir }
    {
        let mut at = inode;
        for _step in 0..self.next {
            if at == dir {
                return true;
            }
            let Some(parent) = self.parent(at) else {
                return false;
            };
            at = parent;
        }
        at == dir
    }

    // Moves the entry of an inode to a directory under a new name.
    fn move_entry(
        &mut self,
        dir: u32,
        name: &[u8],
        number: u32,
        to: u32,
        new_name: &[u8],
    ) -> Result<(), NoMemory>
        requires { CanMove self.old dir name.now number to new_name.now }
        ensures ok { OnOk result (self.new ≡ with_moved self.old dir name.now to new_name.now) }
        ensures err { OnErr result (self.new ≡ self.old) }
        ensures whole { IsTree self.new }
    {
        self.names.rename(dir, name, number, to, new_name)
    }
}
