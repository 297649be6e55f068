// How many rows a change takes.
ghost use Rattle.std.specs.Prelude.{◌≡◌, ◌≤◌, ◌<◌, ◌^◌, ℕ, List};
ghost use Rattle.fan_bits.specs.declared.mark.Mark.{Mark};
ghost use Rattle.fan_rows.specs.Costs.{copied_between, copied_rows};
ghost use Rattle.fan_rows.specs.Trees.{IsChain, Lies, Link, Tree, first_row, marks_in, top};
ghost use Rattle.fan_build.specs.Edits.{chain_effect};
ghost use Rattle.fan_build.specs.Effects.{tree_effect};
ghost use Rattle.fan_build.specs.Needs.{needed_between, needed_rows};
ghost use Rattle.fan_build.specs.Objects.{changed_on};
ghost use Rattle.fan_build.specs.Publishing.{CanChange};

use super::below::rows_below;
use super::edit::{Edit, is_at, is_past, kept, stays};
use super::effect::{Effect, Effects};
use fan_bits::{Change, updated};
use fan_rows::{Cells, mark_at};

/// How many free rows `publish_rows` will take for a change. Changes nothing, and takes no memory.
pub fn rows_needed<C: Cells>(cells: &mut C, root: u64, change: &Change) -> u64
    requires { (marks : List Mark) × CanChange (C.words cells.old) root marks change.now }
    ensures number { (marks : List Mark) → CanChange (C.words cells.old) root marks change.now
        → result ≡ needed_rows marks change.now }
    ensures most { (marks : List Mark) → CanChange (C.words cells.old) root marks change.now
        → result ≤ copied_rows marks change.now }
    ensures words { C.words cells.new ≡ C.words cells.old }
    ensures rows { C.rows cells.new ≡ C.rows cells.old }
{
    let edit = Edit::of(change);
    needed(cells, root, &edit)
}

/// How many free rows `publish_on` will take for a change on one object. Changes nothing, and takes
/// no memory.
pub fn rows_needed_on<C: Cells>(cells: &mut C, root: u64, change: &Change, object: u32) -> u64
    requires { (marks : List Mark) × CanChange (C.words cells.old) root marks change.now }
    ensures number { (marks : List Mark) → CanChange (C.words cells.old) root marks change.now
        → result ≡ needed_between marks (changed_on marks change.now object) }
    ensures most { (marks : List Mark) → CanChange (C.words cells.old) root marks change.now
        → result ≤ copied_between marks (changed_on marks change.now object) }
    ensures words { C.words cells.new ≡ C.words cells.old }
    ensures rows { C.rows cells.new ≡ C.rows cells.old }
{
    let edit = Edit::on(change, object);
    needed(cells, root, &edit)
}

// How many rows an edit takes.
fn needed<C: Cells>(cells: &mut C, root: u64, edit: &Edit) -> u64
    requires { (tree : Tree) × Lies (C.words cells.old) tree 8 × (top tree ≡ root) }
    ensures number { (tree : Tree) → Lies (C.words cells.old) tree 8 → top tree ≡ root
        → result ≡ (tree_effect edit.now 8 0 tree).taken }
    ensures words { C.words cells.new ≡ C.words cells.old }
    ensures rows { C.rows cells.new ≡ C.rows cells.old }
{
    needed_below(cells, root, 0, 8, edit).taken
}

// What a change does below a row that stands for a digit, with so many index rows below.
fn needed_below<C: Cells>(cells: &mut C, row: u64, digit: u32, depth: u32, edit: &Edit) -> Effect
    requires depth { depth ≤ 8 }
    requires tree { (tree : Tree) × Lies (C.words cells.old) tree depth × (top tree ≡ row) }
    ensures effect { (tree : Tree) → Lies (C.words cells.old) tree depth → top tree ≡ row
        → result ≡ tree_effect edit.now depth digit tree }
    ensures words { C.words cells.new ≡ C.words cells.old }
    ensures rows { C.rows cells.new ≡ C.rows cells.old }
{
    if !edit.goes(row, depth, digit) {
        return Effect::none(row != 0);
    }
    if depth == 0 {
        return needed_chain(cells, row, &edit.change);
    }
    let below = rows_below(cells, row);
    let effects = Effects {
        first: needed_below(cells, below.first, 0, depth - 1, edit),
        second: needed_below(cells, below.second, 1, depth - 1, edit),
        third: needed_below(cells, below.third, 2, depth - 1, edit),
        fourth: needed_below(cells, below.fourth, 3, depth - 1, edit),
    };
    effects.joined()
}

// What a change does to the marks of a chain.
fn needed_chain<C: Cells>(cells: &mut C, row: u64, change: &Change) -> Effect
    requires { (links : List Link) × IsChain (C.words cells.old) links × (first_row links ≡ row) }
    ensures effect { (links : List Link) → IsChain (C.words cells.old) links
        → first_row links ≡ row → result ≡ chain_effect change.now (marks_in links) }
    ensures words { C.words cells.new ≡ C.words cells.old }
    ensures rows { C.rows cells.new ≡ C.rows cells.old }
{
    if row == 0 {
        return Effect::added(updated(None, change), false);
    }
    let mark = mark_at(cells, row);
    if is_past(change, &mark) {
        return Effect::added(updated(None, change), true);
    }
    let next = cells.word(4 * row);
    let rest = if is_at(change, &mark) {
        Effect::none(next != 0)
    } else {
        needed_chain(cells, next, change)
    };
    let left = kept(change, mark);
    Effect::replaced(left, stays(left, mark), rest)
}
