// What a reader of a table keeps.

/// A reader's hold on the marks as they stood when it entered.
#[derive(Clone, Copy, Debug, PartialEq, Eq)]
pub struct Section {
    /// The phase in which it entered.
    pub phase: u8,
    /// The root from which the rows picture its marks.
    pub root: u64,
}
