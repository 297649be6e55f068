// The index rows: copied on the paths to what is altered.
ghost use Rattle.std.specs.Prelude.{◌≡◌, ◌≢◌, ◌≤◌, ◌<◌, ◌*◌, ℕ, [], true, length, IsSome};
ghost use Rattle.fan_rows.specs.Rows.{times};
ghost use Rattle.fan_rows.specs.Trees.{Tree};
ghost use Rattle.fan_build.specs.Steps.{Grown, IndexBefore, IndexMade, IndexWritten, TreeBefore, TreeMade, own_row};
ghost use Rattle.fan_build.specs.Parts.{parts_left};

use super::below::rows_below;
use super::chain::publish_chain;
use super::edit::Edit;
use super::made::{Made, Parts};
use super::new_rows::NewRows;
use super::writing::write_row;

/// Makes the rows anew below a row that stands for a digit, with so many index rows below.
pub(crate) fn publish_below<N: NewRows>(
    rows: &mut N,
    row: u64,
    digit: u32,
    depth: u32,
    edit: &Edit,
) -> Made
    requires depth { depth ≤ 8 }
    requires tree { (tree : Tree) × TreeBefore (N.words rows.old) (N.rows rows.old) edit.now depth
        digit row tree }
    ensures { (tree : Tree) → TreeBefore (N.words rows.old) (N.rows rows.old) edit.now depth digit
        row tree → TreeMade (N.words rows.old) (N.words rows.new) (N.rows rows.old)
        (N.rows rows.new) edit.now depth digit tree result }
{
    if !edit.goes(row, depth, digit) {
        return Made::same(row);
    }
    if depth == 0 {
        return publish_chain(rows, row, &edit.change);
    }
    let below = rows_below(rows, row);
    let parts = Parts {
        first: publish_below(rows, below.first, 0, depth - 1, edit),
        second: publish_below(rows, below.second, 1, depth - 1, edit),
        third: publish_below(rows, below.third, 2, depth - 1, edit),
        fourth: publish_below(rows, below.fourth, 3, depth - 1, edit),
    };
    if !parts.altered() {
        return Made::same(row);
    }
    replace_index(rows, row, &parts)
}

// Puts a new index row in the place of one, or none where nothing is left.
fn replace_index<N: NewRows>(rows: &mut N, row: u64, parts: &Parts) -> Made
    requires { (depth : ℕ) × (a : Tree) × (b : Tree) × (c : Tree) × (d : Tree)
        × IndexBefore (N.words rows.old) (N.rows rows.old) depth row parts.now a b c d }
    ensures { (depth : ℕ) (a b c d : Tree)
        → IndexBefore (N.words rows.old) (N.rows rows.old) depth row parts.now a b c d
        → IndexMade (N.words rows.old) (N.words rows.new) (N.rows rows.old) (N.rows rows.new) depth
        row parts.now a b c d result }
{
    let new = write_index(rows, parts);
    let retired = retire_index(rows, row);
    Made {
        row: new,
        altered: true,
        marks: parts.marks(),
        rows: parts.rows() + retired,
    }
}

// Takes and writes an index row; 0 if its words are all 0.
fn write_index<N: NewRows>(rows: &mut N, parts: &Parts) -> u64
    requires { parts_left parts.now ≡ true → 0 < length (N.rows rows.old).free }
    ensures { IndexWritten (N.words rows.old) (N.words rows.new) (N.rows rows.old) (N.rows rows.new)
        parts.now result }
{
    if !parts.left() {
        return 0;
    }
    write_row(
        rows,
        [
            parts.first.row,
            parts.second.row,
            parts.third.row,
            parts.fourth.row,
        ],
    )
}

// Retires an index row, if there is one. Returns how many it retired.
fn retire_index<N: NewRows>(rows: &mut N, row: u64) -> u64
    requires there { row ≢ 0 → IsSome (N.words rows.old (4 * row)) }
    requires once { row ≢ 0 → times row (N.rows rows.old).retired ≡ 0 }
    ensures grown { Grown (N.words rows.old) (N.words rows.new) (N.rows rows.old) (N.rows rows.new)
        [] (own_row row) }
    ensures count { result ≡ length (own_row row) }
{
    if row == 0 {
        return 0;
    }
    rows.retire(row);
    1
}
