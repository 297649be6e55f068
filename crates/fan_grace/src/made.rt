// What a change made of the marks.
ghost use Rattle.std.specs.Prelude.{◌≡◌};

use fan_build::Built;

/// The root of the marks after a change, and how many marks it removed, or replaced.
#[derive(Clone, Copy)]
pub(crate) struct Made {
    pub(crate) root: u64,
    pub(crate) marks: u32,
}

impl Made {
    /// What was built.
    pub(crate) fn of(built: Built) -> Made
        ensures { result ≡ record { root = built.root; marks = built.marks_retired } }
    {
        Made {
            root: built.root,
            marks: built.marks_retired,
        }
    }
}
