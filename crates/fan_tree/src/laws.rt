// Laws of the tree, each the contract of a function that does nothing.
ghost use Rattle.std.specs.Prelude.{◌≡◌, ◌↔◌, ◌+◌, ℕ, Bool, Contains, IfOk, IfSome, IsTrue, List, Some};
ghost use Rattle.fan_tree.specs.Ancestors.{LiesWithin, lies_within};
ghost use Rattle.fan_tree.specs.Changes.{removed, renamed};
ghost use Rattle.fan_tree.specs.Tree.{DirEntry, Inode, TreeState, drawn, initial_tree, inode_of, made, made_fs};
ghost use Rattle.fan_tree.specs.Whole.{IsTree};

/// The first tree is one, and each change of a tree leaves one.
pub fn changes_keep_trees()
    ensures initial { IsTree initial_tree }
    ensures made { (tree : TreeState) (dir : ℕ) (name : List ℕ) (is_dir : Bool) → IsTree tree →
        IfOk (made tree dir name is_dir) (λ done. IsTree done.1) }
    ensures made_fs { (tree : TreeState) → IsTree tree →
        IfOk (made_fs tree) (λ done. IsTree done.1) }
    ensures removed { (tree : TreeState) (dir : ℕ) (name : List ℕ) → IsTree tree →
        IfOk (removed tree dir name) (λ done. IsTree done.1) }
    ensures renamed { (tree : TreeState) (dir : ℕ) (name : List ℕ) (to : ℕ) (new_name : List ℕ) → IsTree tree →
        IfOk (renamed tree dir name to new_name) (λ done. IsTree done.1) }
    ensures drawn { (tree : TreeState) → IsTree tree → IfSome (drawn tree) (λ done. IsTree done.1) }
{}

/// No two entries of a directory have one name.
pub fn names_are_unique()
    ensures { (tree : TreeState) (one other : DirEntry) → IsTree tree →
        Contains tree.names one → Contains tree.names other →
        one.dir ≡ other.dir → one.name ≡ other.name → one ≡ other }
{}

/// An inode is told to lie within a directory exactly if the way up from it leads there. So EINVAL of a rename is
/// exact, and the way up from each inode ends in the root of its filesystem.
pub fn ways_up_are_told()
    ensures told { (tree : TreeState) (inode dir : ℕ) → IsTree tree →
        (IsTrue (lies_within tree inode dir) ↔ LiesWithin tree inode dir) }
    ensures rooted { (tree : TreeState) (inode : Inode) → IsTree tree →
        inode_of tree inode.number ≡ Some inode → LiesWithin tree inode.number (inode.fs + 1) }
{}
