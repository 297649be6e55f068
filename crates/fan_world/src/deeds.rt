// What an operation does once it is planned: to the file tree, to the marks, and in which order.
ghost use Rattle.std.specs.Prelude.{◌≡◌, ◌<◌, ◌^◌, IfErr, IfOk, OnErr};
ghost use Rattle.fan_tree.specs.Changes.{removed};
ghost use Rattle.fan_world.specs.Begun.{HasBegun, HasRemoved};
ghost use Rattle.fan_world.specs.Plans.{IsCause, carried};
ghost use Rattle.fan_world.specs.Sections.{HasRoom};

use super::files::Files;
use super::marks::Marks;
use super::refused::Refused;
use super::sections::Sections;
use fan_access::Spot;
use fan_bits::Errno;
use fan_grace::Section;

/// What an operation does to the file tree or to a file.
#[derive(Clone, Copy, Debug, PartialEq, Eq)]
pub(crate) enum TreeChange {
    /// Nothing.
    Uses,
    /// It writes to the file at the spot.
    Writes,
    /// It makes the entry at the spot.
    Makes { is_dir: bool },
    /// It removes the entry at the first spot.
    Removes,
    /// It moves the entry at the first spot to the second one.
    Renames,
}

/// Makes the one change of the tree that an operation makes at its spots, changes the marks with it,
/// and enters the section by which its access goes: after the change for a write, and before it for
/// a removal. Nothing changes if it is refused, or finds no memory.
pub(crate) fn carry_out<S: Sections>(
    files: &mut Files,
    marks: &mut Marks<S>,
    change: TreeChange,
    spots: &[Spot],
) -> Result<Section, Refused>
    requires room { HasRoom S.inside marks.old.sections }
    requires few { marks.old.waiting < 2 ^ 63 }
    ensures begun { IfOk result (λ section. HasBegun S.inside S.shows S.honest change spots.now
        files.old.tree files.new.tree marks.old marks.new section) }
    ensures refused { IfErr result (λ why. IsCause why (carried files.old.tree change spots.now)) }
    ensures mounts { files.new.mounts ≡ files.old.mounts }
    ensures err { OnErr result (files.new ≡ files.old) }
    ensures err_marks { OnErr result (marks.new ≡ marks.old) }
{
    match (change, spots) {
        (TreeChange::Uses, _) => Ok(marks.enter()),
        (TreeChange::Writes, [file, ..]) => Ok(marks.clear_and_enter(file.place.inode)?),
        (TreeChange::Makes { is_dir }, [entry, ..]) => {
            files.make_entry(entry.place.inode, entry.name.bytes(), is_dir)??;
            Ok(marks.enter())
        }
        (TreeChange::Removes, [entry, ..]) => {
            remove(files, marks, entry.place.inode, entry.name.bytes())
        }
        (TreeChange::Renames, [old, new, ..]) => {
            let to = new.place.inode;
            files.rename(old.place.inode, old.name.bytes(), to, new.name.bytes())??;
            Ok(marks.enter())
        }
        _ => Err(Refused::No(Errno::Einval)),
    }
}

// Removes a file or an empty directory by its name in a directory. First it is known that it can be
// removed; then the access enters its section, and the marks go; and then the tree changes.
fn remove<S: Sections>(
    files: &mut Files,
    marks: &mut Marks<S>,
    dir: u32,
    name: &[u8],
) -> Result<Section, Refused>
    requires room { HasRoom S.inside marks.old.sections }
    requires few { marks.old.waiting < 2 ^ 63 }
    ensures removed { IfOk result (λ section. HasRemoved S.inside S.shows S.honest dir name.now
        files.old.tree files.new.tree marks.old marks.new section) }
    ensures refused { IfErr result (λ why. IsCause why (removed files.old.tree dir name.now)) }
    ensures mounts { files.new.mounts ≡ files.old.mounts }
    ensures err { OnErr result (files.new ≡ files.old) }
    ensures err_marks { OnErr result (marks.new ≡ marks.old) }
{
    let object = files.removable(dir, name)?;
    let section = marks.enter_and_drop(object)?;
    match files.remove(dir, name) {
        Ok(_) => Ok(section),
        Err(_) => unreachable!(),
    }
}
