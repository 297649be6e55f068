// Laws of pictures and of mark rows, each the contract of a function that does nothing else.
ghost use Rattle.std.specs.Prelude.{◌≡◌, ◌≤◌, ◌<◌, ℕ, List, Option, length};
ghost use Rattle.fan_bits.specs.declared.mark.Mark.{Mark};
ghost use Rattle.fan_bits.specs.Marks.{IsMark, IsMarkList};
ghost use Rattle.fan_rows.specs.Costs.{live_rows};
ghost use Rattle.fan_rows.specs.Rows.{KeepsRows};
ghost use Rattle.fan_rows.specs.Trees.{Lies, Pictures, PicturesBy, Tree, rows_of, top};

use super::mark_row::MarkRow;
use fan_bits::Mark;

/// A mark comes back from the words that tell it.
pub fn a_mark_comes_back(mark: &Mark) -> Mark
    requires { IsMark mark.now }
    ensures { result ≡ mark.now }
{
    MarkRow::of(mark).mark()
}

/// Words picture at most one list of marks from a root.
pub fn one_list()
    ensures { (words : ℕ → Option ℕ) (root : ℕ) (marks others : List Mark) →
        Pictures words root marks → Pictures words root others → IsMarkList marks
        → IsMarkList others → marks ≡ others }
{}

/// At one root there lies at most one tree of a depth, so that the rows that are reached from it are
/// those of this tree.
pub fn one_tree()
    ensures { (words : ℕ → Option ℕ) (tree other : Tree) (depth : ℕ) → Lies words tree depth
        → Lies words other depth → top tree ≡ top other → tree ≡ other }
{}

/// Words that are the same on the rows that a picture reaches picture the same list, by the same
/// tree; so a store to a row that no root reaches changes no picture.
pub fn frame()
    ensures { (words later : ℕ → Option ℕ) (root : ℕ) (tree : Tree) (marks : List Mark) →
        KeepsRows words later (rows_of tree) → PicturesBy words root tree marks
        → PicturesBy later root tree marks }
{}

/// A picture reaches fewer rows than its marks take with row 0; so of a list of at most 1,024 marks
/// at most 9,216.
pub fn few_rows()
    ensures live { (words : ℕ → Option ℕ) (root : ℕ) (tree : Tree) (marks : List Mark) →
        PicturesBy words root tree marks → length (rows_of tree) < live_rows marks }
    ensures few { (words : ℕ → Option ℕ) (root : ℕ) (tree : Tree) (marks : List Mark) →
        PicturesBy words root tree marks → length marks ≤ 1024 → length (rows_of tree) ≤ 9216 }
{}
