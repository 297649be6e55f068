// The four rows below an index row.
ghost use Rattle.std.specs.Prelude.{◌≡◌, ℕ, suc};
ghost use Rattle.fan_rows.specs.Trees.{Lies, Tree, top};
ghost use Rattle.fan_build.specs.Steps.{AreBelow};

use fan_rows::{Cells, row_below};

/// The rows for the digits 0 to 3.
#[derive(Clone, Copy)]
pub(crate) struct Below {
    pub(crate) first: u64,
    pub(crate) second: u64,
    pub(crate) third: u64,
    pub(crate) fourth: u64,
}

/// The rows that an index row, or 0, has for the digits.
pub(crate) fn rows_below<C: Cells>(cells: &mut C, row: u64) -> Below
    requires { (depth : ℕ) × (tree : Tree) × Lies (C.words cells.old) tree (suc depth)
        × (top tree ≡ row) }
    ensures below { (depth : ℕ) (tree : Tree) → Lies (C.words cells.old) tree (suc depth)
        → top tree ≡ row → AreBelow tree result }
    ensures words { C.words cells.new ≡ C.words cells.old }
    ensures rows { C.rows cells.new ≡ C.rows cells.old }
{
    Below {
        first: row_below(cells, row, 0),
        second: row_below(cells, row, 1),
        third: row_below(cells, row, 2),
        fourth: row_below(cells, row, 3),
    }
}
