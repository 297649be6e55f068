// The marks of one object: copied up to the last altered one, and shared behind it.
ghost use Rattle.std.specs.Prelude.{◌≡◌, ◌++◌, ◌&&◌, List, not};
ghost use Rattle.fan_bits.specs.Marks.{listed};
ghost use Rattle.fan_rows.specs.Trees.{Link, marks_in};
ghost use Rattle.fan_build.specs.Edits.{added_effect, chain_effect, edited, has_any};
ghost use Rattle.fan_build.specs.Steps.{ChainBefore, ChainMade, ReplaceBefore, Replaced};

use super::edit::{is_at, is_past, kept, stays};
use super::made::Made;
use super::new_rows::NewRows;
use super::writing::write_mark;
use fan_bits::{Change, Mark, updated};
use fan_rows::mark_at;

/// Makes the chain of an object anew.
pub(crate) fn publish_chain<N: NewRows>(rows: &mut N, row: u64, change: &Change) -> Made
    requires { (links : List Link) × ChainBefore (N.words rows.old) (N.rows rows.old) row links
        (edited change.now (marks_in links)) (chain_effect change.now (marks_in links)) }
    ensures { (links : List Link) → ChainBefore (N.words rows.old) (N.rows rows.old) row links
        (edited change.now (marks_in links)) (chain_effect change.now (marks_in links))
        → ChainMade (N.words rows.old) (N.words rows.new) (N.rows rows.old) (N.rows rows.new) links
        (edited change.now (marks_in links)) (chain_effect change.now (marks_in links)) result }
{
    if row == 0 {
        return add_mark(rows, updated(None, change), 0);
    }
    let mark = mark_at(rows, row);
    if is_past(change, &mark) {
        return add_mark(rows, updated(None, change), row);
    }
    let next = rows.word(4 * row);
    let rest = if is_at(change, &mark) {
        Made::same(next)
    } else {
        publish_chain(rows, next, change)
    };
    let left = kept(change, mark);
    let same = stays(left, mark);
    if stands_as_is(same, &rest) {
        return Made::same(row);
    }
    replace_mark(rows, row, left, same, rest)
}

// Whether a mark's row stands as it is: nothing is altered, of the mark and behind it.
fn stands_as_is(same: bool, rest: &Made) -> bool
    ensures { result ≡ (same && not rest.now.altered) }
{
    same && !rest.altered
}

// Puts what is left of a mark, if anything is, in its place before a chain that was made.
fn replace_mark<N: NewRows>(
    rows: &mut N,
    row: u64,
    left: Option<Mark>,
    same: bool,
    rest: Made,
) -> Made
    requires { (links : List Link) × ReplaceBefore (N.words rows.old) (N.rows rows.old) row left
        rest links }
    ensures { (links : List Link) → ReplaceBefore (N.words rows.old) (N.rows rows.old) row left
        rest links → Replaced (N.words rows.old) (N.words rows.new) (N.rows rows.old)
        (N.rows rows.new) row left same rest links result }
{
    let first = add_mark(rows, left, rest.row);
    rows.retire(row);
    Made {
        row: first.row,
        altered: true,
        marks: rest.marks + u64::from(!same),
        rows: rest.rows + 1,
    }
}

// Adds a mark, if there is one, before a chain.
fn add_mark<N: NewRows>(rows: &mut N, new: Option<Mark>, next: u64) -> Made
    requires { (links : List Link) × ChainBefore (N.words rows.old) (N.rows rows.old) next links
        (listed new ++ marks_in links) (added_effect new (has_any (marks_in links))) }
    ensures made { (links : List Link) → ChainBefore (N.words rows.old) (N.rows rows.old) next links
        (listed new ++ marks_in links) (added_effect new (has_any (marks_in links)))
        → ChainMade (N.words rows.old) (N.words rows.new) (N.rows rows.old) (N.rows rows.new) links
        (listed new ++ marks_in links) (added_effect new (has_any (marks_in links))) result }
    ensures none { result.rows ≡ 0 }
{
    let Some(mark) = new else {
        return Made::same(next);
    };
    Made {
        row: write_mark(rows, &mark, next),
        altered: true,
        marks: 0,
        rows: 0,
    }
}
