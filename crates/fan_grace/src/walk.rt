// The walk along the marks of an object, up to an order.
ghost use Rattle.std.specs.Prelude.{◌≡◌, ◌≢◌, ◌<◌, ℕ, List};
ghost use Rattle.fan_bits.specs.declared.mark.Mark.{Mark};
ghost use Rattle.fan_bits.specs.Marks.{order_of};
ghost use Rattle.fan_rows.specs.Rows.{MarkAt};
ghost use Rattle.fan_rows.specs.Trees.{IsChain, Link, first_row};
ghost use Rattle.fan_grace.specs.Hints.{StandsAt};

use fan_bits::Order;
use fan_rows::{Cells, mark_at};

/// The row of the first mark of a chain behind an order, or 0.
pub(crate) fn row_above<C: Cells>(cells: &mut C, first: u64, after: Order) -> u64
    requires { (links : List Link) × IsChain (C.words cells.old) links × (first_row links ≡ first) }
    ensures stands { (links : List Link) → IsChain (C.words cells.old) links
        → first_row links ≡ first → StandsAt links after.0 result }
    ensures above { result ≢ 0 → (next : ℕ) (mark : Mark)
        → MarkAt (C.words cells.old) result next mark → after.0 < order_of mark }
    ensures words { C.words cells.new ≡ C.words cells.old }
    ensures rows { C.rows cells.new ≡ C.rows cells.old }
{
    let mut row = first;
    while row != 0 {
        let mark = mark_at(cells, row);
        if mark.order() > after {
            return row;
        }
        row = cells.word(4 * row);
    }
    0
}
