// Sections of a table that changes, and what they show.
ghost use Rattle.std.specs.Prelude.{◌≡◌, ◌≢◌, ◌≤◌, ◌∷◌, [], List, All, IfOk};
ghost use Rattle.fan_bits.specs.declared.mark.Mark.{Mark};
ghost use Rattle.fan_bits.specs.Places.{IsObject};
ghost use Rattle.fan_grace.specs.declared.section.Section.{Section};
ghost use Rattle.fan_grace.specs.Tables.{IsInside, Present, Shows};

use super::*;
use fan_bits::{Change, Changed, Class, Kind, MarkWords, Order, Verb};
use fan_io::NoMemory;
use std::alloc::Global;
use std::test::Fail;

// Puts bits on the mark of a group on a file, or takes them from it, in a table whose groups are
// all of class Notif.
fn put(
    table: &mut Table,
    verb: Verb,
    group: u32,
    object: u32,
    mask: u32,
) -> Result<Changed, NoMemory>
    requires group { 1 ≤ group }
    requires object { IsObject object }
    requires verb { verb ≢ Verb.Flush }
    requires class { (marks : List Mark) × Present table.old marks
        × All (λ mark. mark.class ≡ Class.Notif) marks }
    ensures class { (marks : List Mark) × Present table.new marks
        × All (λ mark. mark.class ≡ Class.Notif) marks }
    ensures inside { (sections : List Section) → IsInside table.old sections
        → IsInside table.new sections }
{
    table.change(&Change::Put {
        group,
        class: Class::Notif,
        words: MarkWords {
            verb,
            kind: Kind::Inode,
            only_dir: false,
            ignored: false,
            survives: false,
            mask,
        },
        object,
    })
}

// Drops all marks of a group.
fn drop_group(table: &mut Table, group: u32) -> Result<Changed, NoMemory>
    requires class { (marks : List Mark) × Present table.old marks
        × All (λ mark. mark.class ≡ Class.Notif) marks }
    ensures class { (marks : List Mark) × Present table.new marks
        × All (λ mark. mark.class ≡ Class.Notif) marks }
    ensures inside { (sections : List Section) → IsInside table.old sections
        → IsInside table.new sections }
{
    table.change(&Change::DropGroup { group })
}

// The groups and masks of the first eight marks of a section on an object.
fn shown(
    alloc: Global,
    table: &mut Table,
    section: &Section,
    object: u32,
) -> Result<Vec<(u32, u32)>, NoMemory>
    requires object { IsObject object }
    requires shown { (marks : List Mark) × Shows table.old section.now marks }
    ensures { table.new ≡ table.old }
{
    let mut marks = Vec::new(alloc);
    let mut after = Order::START;
    'marks: for _ in 0..8 {
        let Some(mark) = table.next(section, object, after) else {
            return Ok(marks);
        };
        marks.push((mark.group, mark.mask))?;
        after = mark.order();
    }
    Ok(marks)
}

// Makes a hundred changes, after which group 1 has no mark on object 5, and group 4 has none.
fn make_changes(table: &mut Table) -> Result<(), NoMemory>
    requires class { (marks : List Mark) × Present table.old marks
        × All (λ mark. mark.class ≡ Class.Notif) marks }
    ensures inside { (sections : List Section) → IsInside table.old sections
        → IsInside table.new sections }
{
    'rounds: for _ in 0..25 {
        put(table, Verb::Add, 1, 5, 2)?;
        put(table, Verb::Remove, 1, 5, 3)?;
        put(table, Verb::Add, 4, 5, 8)?;
        drop_group(table, 4)?;
    }
    Ok(())
}

// A table with marks of the groups 1 to 3 on object 5, and of group 3 on object 21.
fn marked(alloc: Global) -> Result<Table, NoMemory>
    ensures class { IfOk result (λ table. (marks : List Mark) × Present table marks
        × All (λ mark. mark.class ≡ Class.Notif) marks) }
    ensures inside { IfOk result (λ table. IsInside table []) }
{
    let mut table = Table::new(alloc)?;
    put(&mut table, Verb::Add, 3, 21, 4)?;
    put(&mut table, Verb::Add, 3, 5, 1)?;
    put(&mut table, Verb::Add, 1, 5, 1)?;
    put(&mut table, Verb::Add, 2, 5, 1)?;
    Ok(table)
}

// A table with a section that was entered before a hundred changes, and one that was entered behind
// them.
struct Watched {
    table: Table,
    before: Section,
    after: Section,
}

// Enters, changes the marks, and enters again.
fn enter_twice(alloc: Global) -> Result<Watched, NoMemory>
    ensures { IfOk result (λ it. IsInside it.table (it.after ∷ it.before ∷ [])) }
{
    let mut table = marked(alloc)?;
    let before = table.enter();
    make_changes(&mut table)?;
    let after = table.enter();
    Ok(Watched {
        table,
        before,
        after,
    })
}

#[test]
fn a_section_shows_its_marks_whatever_changes(rt: HostRuntime) -> Result<(), Fail> {
    let Watched {
        mut table,
        before,
        after,
    } = enter_twice(rt.alloc())?;
    let at_first = shown(rt.alloc(), &mut table, &before, 5)?;
    assert_eq!(rt; at_first.as_slice(), [(1, 1), (2, 1), (3, 1)].as_slice());
    let now = shown(rt.alloc(), &mut table, &after, 5)?;
    assert_eq!(rt; now.as_slice(), [(2, 1), (3, 1)].as_slice());
    let elsewhere = shown(rt.alloc(), &mut table, &after, 21)?;
    assert_eq!(rt; elsewhere.as_slice(), [(3, 4)].as_slice());
    let still = shown(rt.alloc(), &mut table, &before, 5)?;
    assert_eq!(rt; still.as_slice(), [(1, 1), (2, 1), (3, 1)].as_slice());
    table.leave(before);
    table.leave(after);
    Ok(())
}
