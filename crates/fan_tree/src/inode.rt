// What is told of a file or directory, and why a change of the tree is refused.
use fan_bits::Errno;
use fan_io::NoMemory;

/// What is told of an inode.
#[derive(Clone, Copy, Debug, PartialEq, Eq)]
pub struct About {
    /// The number of its filesystem, from 1 to 65,535.
    pub fs: u32,
    /// Whether it is a directory.
    pub dir: bool,
}

/// Why a change of the tree was refused. Nothing changed.
#[derive(Clone, Copy, Debug, PartialEq, Eq)]
pub enum TreeRefused {
    /// The tree forbids it.
    No(Errno),
    /// No memory was found.
    NoMemory,
}

impl From<Errno> for TreeRefused {
    ghost use Rattle.std.specs.Prelude.{◌≡◌};
    ghost use Rattle.fan_tree.specs.declared.inode.TreeRefused.TheVariants.{No};

    ghost from_gives = { λ refusal e. e ≡ No refusal };

    fn from(refusal: Errno) -> TreeRefused {
        TreeRefused::No(refusal)
    }
}

impl From<NoMemory> for TreeRefused {
    ghost use Rattle.std.specs.Prelude.{◌≡◌};
    ghost use Rattle.fan_tree.specs.declared.inode.TreeRefused.TheVariants.{NoMemory};

    ghost from_gives = { λ _ e. e ≡ NoMemory };

    fn from(_: NoMemory) -> TreeRefused {
        TreeRefused::NoMemory
    }
}
