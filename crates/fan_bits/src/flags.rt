// The flags of fanotify_init(2) as a set of named bits.
ghost use Rattle.std.specs.Prelude.{⊤, [], ◌∷◌, codes};

use bitflags::{Flag, Flags, bitflag_items};

// A set of the flags of fanotify_init(2).
#[derive(Clone, Copy, Debug, PartialEq, Eq)]
pub(crate) struct InitFlags(pub(crate) u32);

bitflag_items! {
    impl InitFlags: u32 {
        const CLOEXEC = 0x1;
        const NONBLOCK = 0x2;
        const CLASS_CONTENT = 0x4;
        const CLASS_PRE_CONTENT = 0x8;
        const UNLIMITED_QUEUE = 0x10;
        const UNLIMITED_MARKS = 0x20;
        const REPORT_TID = 0x100;
        const REPORT_FID = 0x200;
        const REPORT_DIR_FID = 0x400;
        const REPORT_NAME = 0x800;
    }
}

impl Flags for InitFlags {
    type Bits = u32;

    ghost exact = { ⊤ };

    ghost table = { (codes "CLOEXEC", 0x1) ∷ (codes "NONBLOCK", 0x2)
        ∷ (codes "CLASS_CONTENT", 0x4) ∷ (codes "CLASS_PRE_CONTENT", 0x8)
        ∷ (codes "UNLIMITED_QUEUE", 0x10) ∷ (codes "UNLIMITED_MARKS", 0x20)
        ∷ (codes "REPORT_TID", 0x100) ∷ (codes "REPORT_FID", 0x200)
        ∷ (codes "REPORT_DIR_FID", 0x400) ∷ (codes "REPORT_NAME", 0x800) ∷ [] };

    ghost set_of = { λ flags. flags.0 };

    fn flags<'a>() -> &'a [Flag<InitFlags>] {
        InitFlags::FLAGS
    }

    fn bits(&self) -> u32 {
        self.0
    }

    fn from_bits_retain(bits: u32) -> InitFlags {
        InitFlags(bits)
    }
}
