// Laws of mounts, each the contract of a function that does nothing.
ghost use Rattle.std.specs.Prelude.{◌≡◌, ℕ, IfOk, List, Ok, true};
ghost use Rattle.fan_bits.specs.declared.place.Place.{Place};
ghost use Rattle.fan_mounts.specs.declared.mount.Mount.{Mount};
ghost use Rattle.fan_mounts.specs.Mounts.{AreDrawn, AreMounts, initial_mounts, is_mount_root, mount_of, mounted, unmounted};
ghost use Rattle.fan_mounts.specs.Reaches.{Reaches, root_place};
ghost use Rattle.fan_tree.specs.Tree.{TreeState, initial_tree};
ghost use Rattle.fan_tree.specs.Whole.{IsTree};

/// The numbers of mounts that were drawn from one tree rise, whatever is mounted or unmounted.
pub fn mounts_stay_mounts()
    ensures initial { AreMounts initial_mounts × AreDrawn initial_tree initial_mounts }
    ensures mounted { (tree : TreeState) (mounts : List Mount) (fs : ℕ) (at : Place) →
        IsTree tree → AreMounts mounts → AreDrawn tree mounts →
        IfOk (mounted tree mounts fs at) (λ done. AreMounts done.2 × AreDrawn done.1 done.2) }
    ensures unmounted { (tree : TreeState) (mounts : List Mount) (number : ℕ) →
        AreMounts mounts → AreDrawn tree mounts →
        IfOk (unmounted mounts number) (λ left. AreMounts left × AreDrawn tree left) }
{}

/// What a path reaches without a name that leads to it is the root of its mount.
pub fn a_place_without_parent_is_a_root()
    ensures { (tree : TreeState) (mounts : List Mount) (path : List ℕ) (place : Place) →
        AreMounts mounts → Reaches tree mounts path place → is_mount_root place ≡ true →
        root_place tree (mount_of mounts place.mount) ≡ Ok place }
{}
