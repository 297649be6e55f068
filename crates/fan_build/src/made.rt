// What was made of the rows below one.
ghost use Rattle.std.specs.Prelude.{◌≡◌, ◌+◌, ◌<◌, ◌^◌, ◌||◌, false};
ghost use Rattle.fan_build.specs.Parts.{parts_left};

use super::effect::any_of;

/// What was made of the rows below one.
#[derive(Clone, Copy)]
pub(crate) struct Made {
    /// The row that takes its place, or 0.
    pub(crate) row: u64,
    /// Whether a mark is altered; otherwise it is the same row, and nothing was taken or retired.
    pub(crate) altered: bool,
    /// How many marks were retired.
    pub(crate) marks: u64,
    /// How many rows were retired.
    pub(crate) rows: u64,
}

impl Made {
    /// Nothing is altered.
    pub(crate) fn same(row: u64) -> Made
        ensures { result ≡ record { row = row; altered = false; marks = 0; rows = 0 } }
    {
        Made {
            row,
            altered: false,
            marks: 0,
            rows: 0,
        }
    }
}

/// What was made for the digits 0 to 3.
#[derive(Clone, Copy)]
pub(crate) struct Parts {
    pub(crate) first: Made,
    pub(crate) second: Made,
    pub(crate) third: Made,
    pub(crate) fourth: Made,
}

impl Parts {
    /// Whether a mark is altered below one of them.
    pub(crate) fn altered(&self) -> bool
        ensures { result ≡ (self.now.first.altered || self.now.second.altered
            || self.now.third.altered || self.now.fourth.altered) }
    {
        any_of(
            self.first.altered,
            self.second.altered,
            self.third.altered,
            self.fourth.altered,
        )
    }

    /// Whether a mark is left below one of them.
    pub(crate) fn left(&self) -> bool
        ensures { result ≡ parts_left self.now }
    {
        any_of(
            self.first.row != 0,
            self.second.row != 0,
            self.third.row != 0,
            self.fourth.row != 0,
        )
    }

    /// How many marks were retired.
    pub(crate) fn marks(&self) -> u64
        requires { self.now.first.marks + self.now.second.marks + self.now.third.marks
            + self.now.fourth.marks < 2 ^ 64 }
        ensures { result ≡ self.now.first.marks + self.now.second.marks + self.now.third.marks
            + self.now.fourth.marks }
    {
        self.first.marks + self.second.marks + self.third.marks + self.fourth.marks
    }

    /// How many rows were retired.
    pub(crate) fn rows(&self) -> u64
        requires { self.now.first.rows + self.now.second.rows + self.now.third.rows
            + self.now.fourth.rows < 2 ^ 64 }
        ensures { result ≡ self.now.first.rows + self.now.second.rows + self.now.third.rows
            + self.now.fourth.rows }
    {
        self.first.rows + self.second.rows + self.third.rows + self.fourth.rows
    }
}
