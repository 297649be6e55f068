// A change of the marks that rows picture.
ghost use Rattle.std.specs.Prelude.{◌≡◌, ◌≤◌, ◌<◌, ◌+◌, ◌*◌, ◌++◌, ℕ, List, length};
ghost use Rattle.fan_bits.specs.declared.mark.Mark.{Mark};
ghost use Rattle.fan_bits.specs.Marks.{changed, gone, retired};
ghost use Rattle.fan_rows.specs.Rows.{times};
ghost use Rattle.fan_rows.specs.Trees.{Pictures};
ghost use Rattle.fan_build.specs.Building.{CanBuild, IsBuilt};
ghost use Rattle.fan_build.specs.Needs.{needed_between, needed_rows};
ghost use Rattle.fan_build.specs.Objects.{changed_on};
ghost use Rattle.fan_build.specs.Publishing.{CanPublish, CanPublishOn, Reaches, Wrote, given_since, retired_since};

use super::edit::Edit;
use super::index::publish_below;
use super::new_rows::NewRows;
use fan_bits::Change;

/// What a change built.
#[derive(Clone, Copy, Debug, PartialEq, Eq)]
pub struct Built {
    /// The root of the changed list.
    pub root: u64,
    /// How many marks the change removed, or replaced by different ones.
    pub marks_retired: u32,
    /// How many rows the new root doesn't reach, of those that the old root reached and those that
    /// were written.
    pub rows_retired: u64,
}

/// Makes a change: from the new root the words picture the changed list. Rows that were reached are
/// not written, so from the old root they picture the old list still. Takes no memory.
pub fn publish_rows<N: NewRows>(rows: &mut N, root: u64, change: &Change) -> Built
    requires { (marks : List Mark)
        × CanPublish (N.words rows.old) (N.rows rows.old) root marks change.now }
    ensures pictures { (marks : List Mark)
        → CanPublish (N.words rows.old) (N.rows rows.old) root marks change.now
        → Pictures (N.words rows.new) result.root (changed marks change.now) }
    ensures reached { (before after : List ℕ) → Reaches (N.words rows.old) root before
        → Reaches (N.words rows.new) result.root after → (row : ℕ) → times row after
        ≤ times row before + times row (given_since (N.rows rows.old) (N.rows rows.new)) }
    ensures fresh { Wrote (N.words rows.old) (N.words rows.new) (N.rows rows.old)
        (N.rows rows.new) }
    ensures needed { (marks : List Mark)
        → CanPublish (N.words rows.old) (N.rows rows.old) root marks change.now
        → length (given_since (N.rows rows.old) (N.rows rows.new)) ≡ needed_rows marks change.now }
    ensures marks { (marks : List Mark)
        → CanPublish (N.words rows.old) (N.rows rows.old) root marks change.now
        → result.marks_retired ≡ length (retired marks change.now) }
    ensures rows { result.rows_retired
        ≡ length (retired_since (N.rows rows.old) (N.rows rows.new)) }
    ensures once { (before after : List ℕ) → Reaches (N.words rows.old) root before
        → Reaches (N.words rows.new) result.root after → (row : ℕ) →
        times row before + times row (given_since (N.rows rows.old) (N.rows rows.new))
        ≡ times row after + times row (retired_since (N.rows rows.old) (N.rows rows.new)) }
    ensures same { (marks : List Mark)
        → CanPublish (N.words rows.old) (N.rows rows.old) root marks change.now
        → changed marks change.now ≡ marks → result.root ≡ root }
    ensures kept { (marks : List Mark)
        → CanPublish (N.words rows.old) (N.rows rows.old) root marks change.now
        → result.root ≡ root → changed marks change.now ≡ marks }
{
    let edit = Edit::of(change);
    build(rows, root, &edit)
}

/// Makes a change on one object alone: from the new root the words picture the list in which the
/// marks on that object are those of the changed list, and all others stay. A change that is made
/// on each object on which it alters a mark is made as a whole. A Put is made on its own object, and
/// changes nothing on another one. Takes no memory.
pub fn publish_on<N: NewRows>(rows: &mut N, root: u64, change: &Change, object: u32) -> Built
    requires { (marks : List Mark)
        × CanPublishOn (N.words rows.old) (N.rows rows.old) root marks change.now object }
    ensures pictures { (marks : List Mark)
        → CanPublishOn (N.words rows.old) (N.rows rows.old) root marks change.now object
        → Pictures (N.words rows.new) result.root (changed_on marks change.now object) }
    ensures reached { (before after : List ℕ) → Reaches (N.words rows.old) root before
        → Reaches (N.words rows.new) result.root after → (row : ℕ) → times row after
        ≤ times row before + times row (given_since (N.rows rows.old) (N.rows rows.new)) }
    ensures fresh { Wrote (N.words rows.old) (N.words rows.new) (N.rows rows.old)
        (N.rows rows.new) }
    ensures needed { (marks : List Mark)
        → CanPublishOn (N.words rows.old) (N.rows rows.old) root marks change.now object
        → length (given_since (N.rows rows.old) (N.rows rows.new))
        ≡ needed_between marks (changed_on marks change.now object) }
    ensures marks { (marks : List Mark)
        → CanPublishOn (N.words rows.old) (N.rows rows.old) root marks change.now object
        → result.marks_retired ≡ length (gone marks (changed_on marks change.now object)) }
    ensures rows { result.rows_retired
        ≡ length (retired_since (N.rows rows.old) (N.rows rows.new)) }
    ensures once { (before after : List ℕ) → Reaches (N.words rows.old) root before
        → Reaches (N.words rows.new) result.root after → (row : ℕ) →
        times row before + times row (given_since (N.rows rows.old) (N.rows rows.new))
        ≡ times row after + times row (retired_since (N.rows rows.old) (N.rows rows.new)) }
    ensures same { (marks : List Mark)
        → CanPublishOn (N.words rows.old) (N.rows rows.old) root marks change.now object
        → changed_on marks change.now object ≡ marks → result.root ≡ root }
    ensures kept { (marks : List Mark)
        → CanPublishOn (N.words rows.old) (N.rows rows.old) root marks change.now object
        → result.root ≡ root → changed_on marks change.now object ≡ marks }
{
    let edit = Edit::on(change, object);
    build(rows, root, &edit)
}

// Makes an edit of the marks that are pictured from a root.
fn build<N: NewRows>(rows: &mut N, root: u64, edit: &Edit) -> Built
    requires { (marks : List Mark) × (after : List Mark)
        × CanBuild (N.words rows.old) (N.rows rows.old) root edit.now marks after }
    ensures { (marks after : List Mark)
        → CanBuild (N.words rows.old) (N.rows rows.old) root edit.now marks after
        → IsBuilt (N.words rows.old) (N.words rows.new) (N.rows rows.old) (N.rows rows.new) root
        marks after result }
{
    let made = publish_below(rows, root, 0, 8, edit);
    Built {
        root: made.row,
        marks_retired: made.marks as u32,
        rows_retired: made.rows,
    }
}
