// The walk of rows: down the index to an object's connector, and along its marks.
ghost use Rattle.std.specs.Prelude.{◌≡◌, ◌≤◌, ◌<◌, ◌^◌, ℕ, suc, find, List, nat_lt};
ghost use Rattle.fan_bits.specs.declared.mark.Mark.{Mark};
ghost use Rattle.fan_bits.specs.Marks.{order_of};
ghost use Rattle.fan_rows.specs.Rows.{MarkAt};
ghost use Rattle.fan_rows.specs.Trees.{IsChain, Lies, Link, Tree, chain_at, child, digits, first_row, marks_in, top};

use super::cells::Cells;
use super::mark_row::MarkRow;
use fan_bits::{Mark, Order};

// What the most significant of the eight base-four digits of an object stands for.
const FIRST_PLACE: u32 = 16_384;

/// The first mark row of an object, or 0, by the digits of its number.
pub fn connector<C: Cells>(cells: &mut C, root: u64, object: u32) -> u64
    requires { (tree : Tree) × Lies (C.words cells.old) tree 8 × (top tree ≡ root) }
    ensures chain { (tree : Tree) → Lies (C.words cells.old) tree 8 → top tree ≡ root
        → IsChain (C.words cells.old) (chain_at tree (digits object)) }
    ensures first { (tree : Tree) → Lies (C.words cells.old) tree 8 → top tree ≡ root
        → first_row (chain_at tree (digits object)) ≡ result }
    ensures words { C.words cells.new ≡ C.words cells.old }
    ensures rows { C.rows cells.new ≡ C.rows cells.old }
{
    let mut row = root;
    let mut place = FIRST_PLACE;
    while place > 0 {
        row = row_below(cells, row, u64::from(object / place % 4));
        place /= 4;
    }
    row
}

/// The row that an index row, or 0, has for a digit.
pub fn row_below<C: Cells>(cells: &mut C, row: u64, digit: u64) -> u64
    requires digit { digit < 4 }
    requires tree { (depth : ℕ) × (tree : Tree) × Lies (C.words cells.old) tree (suc depth)
        × (top tree ≡ row) }
    ensures lies { (depth : ℕ) (tree : Tree) → Lies (C.words cells.old) tree (suc depth)
        → top tree ≡ row → Lies (C.words cells.old) (child tree digit) depth }
    ensures top { (depth : ℕ) (tree : Tree) → Lies (C.words cells.old) tree (suc depth)
        → top tree ≡ row → top (child tree digit) ≡ result }
    ensures words { C.words cells.new ≡ C.words cells.old }
    ensures rows { C.rows cells.new ≡ C.rows cells.old }
{
    if row == 0 {
        return 0;
    }
    cells.word(4 * row + digit)
}

/// The first mark of a chain behind an order.
pub fn first_above<C: Cells>(cells: &mut C, first: u64, after: Order) -> Option<Mark>
    requires { (links : List Link) × IsChain (C.words cells.old) links × (first_row links ≡ first) }
    ensures found { (links : List Link) → IsChain (C.words cells.old) links
        → first_row links ≡ first
        → result ≡ find (λ mark. nat_lt after.0 (order_of mark)) (marks_in links) }
    ensures words { C.words cells.new ≡ C.words cells.old }
    ensures rows { C.rows cells.new ≡ C.rows cells.old }
{
    let mut row = first;
    while row != 0 {
        let mark = mark_at(cells, row);
        if mark.order() > after {
            return Some(mark);
        }
        row = cells.word(4 * row);
    }
    None
}

/// The mark of a row.
pub fn mark_at<C: Cells>(cells: &mut C, row: u64) -> Mark
    requires { (next : ℕ) × (mark : Mark) × MarkAt (C.words cells.old) row next mark }
    ensures found { (next : ℕ) (mark : Mark) → MarkAt (C.words cells.old) row next mark
        → result ≡ mark }
    ensures words { C.words cells.new ≡ C.words cells.old }
    ensures rows { C.rows cells.new ≡ C.rows cells.old }
{
    let words = MarkRow {
        sets: cells.word(4 * row + 1),
        object: cells.word(4 * row + 2),
        group: cells.word(4 * row + 3),
    };
    words.mark()
}
