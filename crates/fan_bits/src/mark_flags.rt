// The flags and the mask bits of fanotify_mark(2) as sets of named bits.
ghost use Rattle.std.specs.Prelude.{⊤, [], ◌∷◌, codes};

use bitflags::{Flag, Flags, bitflag_items};

// A set of the flags of fanotify_mark(2).
#[derive(Clone, Copy, Debug, PartialEq, Eq)]
pub(crate) struct MarkFlags(u32);

bitflag_items! {
    impl MarkFlags: u32 {
        const ADD = 0x1;
        const REMOVE = 0x2;
        const DONT_FOLLOW = 0x4;
        const ONLYDIR = 0x8;
        const MOUNT = 0x10;
        const IGNORED_MASK = 0x20;
        const IGNORED_SURV_MODIFY = 0x40;
        const FLUSH = 0x80;
        const FILESYSTEM = 0x100;
    }
}

impl Flags for MarkFlags {
    type Bits = u32;

    ghost exact = { ⊤ };

    ghost table = { (codes "ADD", 0x1) ∷ (codes "REMOVE", 0x2) ∷ (codes "DONT_FOLLOW", 0x4)
        ∷ (codes "ONLYDIR", 0x8) ∷ (codes "MOUNT", 0x10) ∷ (codes "IGNORED_MASK", 0x20)
        ∷ (codes "IGNORED_SURV_MODIFY", 0x40) ∷ (codes "FLUSH", 0x80)
        ∷ (codes "FILESYSTEM", 0x100) ∷ [] };

    ghost set_of = { λ flags. flags.0 };

    fn flags<'a>() -> &'a [Flag<MarkFlags>] {
        MarkFlags::FLAGS
    }

    fn bits(&self) -> u32 {
        self.0
    }

    fn from_bits_retain(bits: u32) -> MarkFlags {
        MarkFlags(bits)
    }
}

impl MarkFlags {
    // FAN_MARK_FLUSH and the two that may be given with it.
    pub(crate) const BESIDE_FLUSH: MarkFlags = MarkFlags(
        MarkFlags::MOUNT.0 | MarkFlags::FLUSH.0 | MarkFlags::FILESYSTEM.0,
    );
}

// A set of the bits of a mask: events, and the two that qualify them.
#[derive(Clone, Copy, Debug, PartialEq, Eq)]
pub(crate) struct MaskBits(pub(crate) u64);

bitflag_items! {
    impl MaskBits: u64 {
        const ACCESS = 0x1;
        const MODIFY = 0x2;
        const ATTRIB = 0x4;
        const CLOSE_WRITE = 0x8;
        const CLOSE_NOWRITE = 0x10;
        const OPEN = 0x20;
        const MOVED_FROM = 0x40;
        const MOVED_TO = 0x80;
        const CREATE = 0x100;
        const DELETE = 0x200;
        const DELETE_SELF = 0x400;
        const MOVE_SELF = 0x800;
        const OPEN_EXEC = 0x1000;
        const OPEN_PERM = 0x1_0000;
        const ACCESS_PERM = 0x2_0000;
        const OPEN_EXEC_PERM = 0x4_0000;
        const EVENT_ON_CHILD = 0x800_0000;
        const ONDIR = 0x4000_0000;
    }
}

impl Flags for MaskBits {
    type Bits = u64;

    ghost exact = { ⊤ };

    ghost table = { (codes "ACCESS", 0x1) ∷ (codes "MODIFY", 0x2) ∷ (codes "ATTRIB", 0x4)
        ∷ (codes "CLOSE_WRITE", 0x8) ∷ (codes "CLOSE_NOWRITE", 0x10) ∷ (codes "OPEN", 0x20)
        ∷ (codes "MOVED_FROM", 0x40) ∷ (codes "MOVED_TO", 0x80) ∷ (codes "CREATE", 0x100)
        ∷ (codes "DELETE", 0x200) ∷ (codes "DELETE_SELF", 0x400) ∷ (codes "MOVE_SELF", 0x800)
        ∷ (codes "OPEN_EXEC", 0x1000) ∷ (codes "OPEN_PERM", 0x1_0000)
        ∷ (codes "ACCESS_PERM", 0x2_0000) ∷ (codes "OPEN_EXEC_PERM", 0x4_0000)
        ∷ (codes "EVENT_ON_CHILD", 0x800_0000) ∷ (codes "ONDIR", 0x4000_0000) ∷ [] };

    ghost set_of = { λ bits. bits.0 };

    fn flags<'a>() -> &'a [Flag<MaskBits>] {
        MaskBits::FLAGS
    }

    fn bits(&self) -> u64 {
        self.0
    }

    fn from_bits_retain(bits: u64) -> MaskBits {
        MaskBits(bits)
    }
}

impl MaskBits {
    // The events that ask for permission.
    pub(crate) const PERM_EVENTS: MaskBits = MaskBits(
        MaskBits::OPEN_PERM.0 | MaskBits::ACCESS_PERM.0 | MaskBits::OPEN_EXEC_PERM.0,
    );

    // The events that are only reported by handles.
    pub(crate) const HANDLE_EVENTS: MaskBits = MaskBits(
        MaskBits::ATTRIB.0
            | MaskBits::MOVED_FROM.0
            | MaskBits::MOVED_TO.0
            | MaskBits::CREATE.0
            | MaskBits::DELETE.0
            | MaskBits::DELETE_SELF.0
            | MaskBits::MOVE_SELF.0,
    );

    // The events of a file or directory itself.
    pub(crate) const SELF_EVENTS: MaskBits = MaskBits(
        MaskBits::DELETE_SELF.0 | MaskBits::MOVE_SELF.0,
    );

    // The events that a mark on a directory reports of its entries with FAN_EVENT_ON_CHILD.
    pub(crate) const CHILD_EVENTS: MaskBits = MaskBits(
        MaskBits::ACCESS.0
            | MaskBits::MODIFY.0
            | MaskBits::ATTRIB.0
            | MaskBits::CLOSE_WRITE.0
            | MaskBits::CLOSE_NOWRITE.0
            | MaskBits::OPEN.0
            | MaskBits::OPEN_EXEC.0
            | MaskBits::PERM_EVENTS.0,
    );
}
