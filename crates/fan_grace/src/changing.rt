// Changes of the marks of a table, which keep noted on which objects each group has marks.
ghost use Rattle.std.specs.Prelude.{◌≡◌, List, IfOk, OnErr, OnOk};
ghost use Rattle.fan_bits.specs.declared.mark.Mark.{Mark};
ghost use Rattle.fan_bits.specs.Marks.{changed};
ghost use Rattle.fan_rows.specs.Trees.{Tree};
ghost use Rattle.fan_grace.specs.Dropping.{IsDrop};
ghost use Rattle.fan_grace.specs.Noted.{AreNoted};
ghost use Rattle.fan_grace.specs.Stored.{CanMake, IsMade};

use super::made::Made;
use super::noted::{Noted, Span};
use super::stored::StoredRows;
use fan_bits::Change;
use fan_io::NoMemory;

/// Makes a change of the marks that are pictured from a root. The marks of a group go object by
/// object.
///
/// # Errors
/// `NoMemory` if there was none; nothing is changed then.
pub(crate) fn change_noted(
    rows: &mut StoredRows,
    noted: &mut Noted,
    root: u64,
    change: &Change,
) -> Result<Made, NoMemory>
    requires { (marks : List Mark) × (tree : Tree) × CanMake rows.old root marks tree change.now
        × AreNoted noted.old.entries marks }
    ensures made { (marks : List Mark) (tree : Tree) → CanMake rows.old root marks tree change.now
        → AreNoted noted.old.entries marks
        → IfOk result (IsMade rows.old rows.new root marks (changed marks change.now)) }
    ensures noted { (marks : List Mark) (tree : Tree) → CanMake rows.old root marks tree change.now
        → AreNoted noted.old.entries marks
        → OnOk result (AreNoted noted.new.entries (changed marks change.now)) }
    ensures err { OnErr result (rows.new ≡ rows.old) }
    ensures noted_err { OnErr result (noted.new.entries ≡ noted.old.entries) }
{
    match *change {
        Change::Put {
            group,
            words,
            object,
            ..
        } => {
            noted.reserve()?;
            let made = rows.change(root, change)?;
            noted.note(group, words.kind, object);
            Ok(made)
        }
        Change::Flush { .. } | Change::DropGroup { .. } => drop_noted(rows, noted, root, change),
        Change::Clear { .. } | Change::DropObject { .. } => rows.change(root, change),
    }
}

// Makes a change that takes away marks of a group, on each object that is noted for them.
fn drop_noted(
    rows: &mut StoredRows,
    noted: &mut Noted,
    root: u64,
    change: &Change,
) -> Result<Made, NoMemory>
    requires drops { IsDrop change.now }
    requires can { (marks : List Mark) × (tree : Tree) × CanMake rows.old root marks tree change.now
        × AreNoted noted.old.entries marks }
    ensures made { (marks : List Mark) (tree : Tree) → CanMake rows.old root marks tree change.now
        → AreNoted noted.old.entries marks
        → IfOk result (IsMade rows.old rows.new root marks (changed marks change.now)) }
    ensures noted { (marks : List Mark) (tree : Tree) → CanMake rows.old root marks tree change.now
        → AreNoted noted.old.entries marks
        → OnOk result (AreNoted noted.new.entries (changed marks change.now)) }
    ensures err { OnErr result (rows.new ≡ rows.old) }
    ensures noted_err { OnErr result (noted.new.entries ≡ noted.old.entries) }
{
    let places = noted.within(&Span::of(change))?;
    let made = rows.change_each(root, change, &places)?;
    noted.forget(&places);
    Ok(made)
}
