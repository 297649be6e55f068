// Short histories of accesses, worked out from fanotify(7) and fanotify_mark(2).
ghost use Rattle.std.specs.Prelude.{◌≡◌, length, IfOk};
ghost use Rattle.fan_access.specs.Operations.{told_events};
ghost use Rattle.fan_bits.specs.Places.{IsPlace};
ghost use Rattle.fan_event.specs.Names.{IsName};

use super::*;
use crate::Report::{Itself, OfEntry};
use crate::test_groups::{FILE, FS, TwoGroups, marks_of_all, two_marks};
use fan_bits::Place;
use fan_event::Name;
use fan_io::NoMemory;
use std::alloc::Global;
use std::fmt::Write;
use std::test::Fail;

// A mount of the filesystem, its root, and a directory in there.
const MOUNT: u32 = 2;

const ROOT: u32 = 3;

const SUB: u32 = 5;

// What each operation asks for and tells of, by the numbers of fanotify_mark(2).
const TABLE: [(Op, &[u32], &[Report]); 12] = [
    (Op::Opens, &[0x10000], &[Itself(0x20)]),
    (Op::Execs, &[0x40000, 0x10000], &[Itself(0x1020)]),
    (Op::Reads, &[0x20000], &[Itself(0x1)]),
    (Op::Writes, &[], &[Itself(0x2)]),
    (Op::ClosesWrite, &[], &[Itself(0x8)]),
    (Op::ClosesRead, &[], &[Itself(0x10)]),
    (Op::Attribs, &[], &[Itself(0x4)]),
    (Op::Creates, &[], &[OfEntry(0x100)]),
    (Op::MakesDir, &[], &[OfEntry(0x100)]),
    (Op::Unlinks, &[], &[OfEntry(0x200), Itself(0x400)]),
    (Op::RemovesDir, &[], &[OfEntry(0x200), Itself(0x400)]),
    (
        Op::Renames,
        &[],
        &[OfEntry(0x40), OfEntry(0x80), Itself(0x800)],
    ),
];

#[test]
fn operations_have_the_events_of_fanotify_mark(rt: HostRuntime) -> Result<(), Fail> {
    for (op, asked, told) in TABLE {
        assert_eq!(rt; op.asked_events(), asked, "asked by {op:?}");
        assert_eq!(rt; op.told_events(), told, "told by {op:?}");
    }
    Ok(())
}

// A line is an operation, ' = ' and whom it asks and tells from its begin to its end, where each
// answer allows. The root is 3, the file `f` in it 4 and the directory `sub` in it 5. Group 2 wants
// all events of the file that need an answer, and group 1 all others.
const WHOLE: &str = "\
open = ask 2 10000@4 f, tell 1 20@4 f
opendir = tell 1 20@3/ .
exec = ask 2 40000@4 f, ask 2 10000@4 f, tell 1 1020@4 f
read = ask 2 20000@4 f, tell 1 1@4 f
list = tell 1 1@3/ .
write = tell 1 2@4 f
close_write = tell 1 8@4 f
close_read = tell 1 10@4 f
attrib = tell 1 4@4 f
create = tell 1 100@3+ new
mkdir = tell 1 100@3+/ new
unlink = tell 1 200@3+ f, tell 1 400@4 f
rmdir = tell 1 200@3+/ sub, tell 1 400@5/ sub
rename = tell 1 40@3+ f, tell 1 80@5+ g, tell 1 800@4 g
rename_dir = tell 1 40@3+/ sub, tell 1 80@3+/ new, tell 1 800@5/ new
";

#[test]
fn operations_ask_and_tell_in_order(rt: HostRuntime) -> Result<(), Fail> {
    for line in WHOLE.lines() {
        let Some((word, wanted)) = line.split_once(" = ") else {
            continue;
        };
        let mut groups = TwoGroups::new(rt.alloc())?;
        run_whole(begun(rt.alloc(), word)?, &mut groups)?;
        assert_eq!(rt; groups.log(), wanted, "of {word}");
    }
    Ok(())
}

// Does all steps of an access; each group that is asked allows it.
fn run_whole(mut access: Access, groups: &mut TwoGroups) -> Result<(), NoMemory> {
    for _ in 0..20 {
        if !groups.made_few() {
            return Ok(());
        }
        let outcome = access.step(&mut marks_of_all(), groups)?;
        if outcome.ends_access() {
            return Ok(());
        }
        if let StepOutcome::Asked(group) = outcome {
            groups.answer_by("allow", group);
        }
    }
    Ok(())
}

// A line is a history, ' = ' and the outcomes of its single steps. Each `step` is one of the access
// that began last, and each other word without a number begins one, as in `begun`. `allow` and
// `deny` with the number of a group let it read what is queued and answer the last event; `close`
// closes it.
const HISTORIES: &str = "\
open step step allow.2 step step allow.1 step step step step = Asked(2) Blocked(2) Allowed(2) Asked(1) Allowed(1) Queued(2) Queued(1) Done
open step allow.2 step step deny.1 step = Asked(2) Allowed(2) Asked(1) Denied(1)
open step deny.2 step = Asked(2) Denied(2)
open step close.2 step step close.1 step step step step = Asked(2) Closed(2) Asked(1) Closed(1) Closed(2) Closed(1) Done
open step open step open step step = Asked(2) Asked(2) Full(2) Asked(1)
write step step write step step = Queued(2) Done Merged(2) Done
opendir step allow.1 step step step = Asked(1) Allowed(1) Queued(1) Done
open step open step write step step = Asked(2) Asked(2) Overflow(2) Done
exec step allow.2 step step allow.1 step step step step = Asked(2) Allowed(2) Asked(1) Allowed(1) Queued(2) Queued(1) Done
exec step deny.2 step = Asked(2) Denied(2)
list step = Done
unlink step = Done
rename step = Done
";

#[test]
fn histories_come_out_as_worked_out(rt: HostRuntime) -> Result<(), Fail> {
    for line in HISTORIES.lines() {
        let Some((history, wanted)) = line.split_once(" = ") else {
            continue;
        };
        let outcomes = play(rt.alloc(), history)?;
        assert_eq!(rt; outcomes.as_str(), wanted, "at {history}");
    }
    Ok(())
}

// The outcomes of a history.
fn play(alloc: Global, history: &str) -> Result<String, NoMemory> {
    let mut out = String::new(alloc);
    let mut groups = TwoGroups::new(alloc)?;
    let mut access = begun(alloc, "open")?;
    for word in history.split(' ') {
        match word.split_once('.') {
            Some((verdict, group)) => groups.answer_by(verdict, group.parse().unwrap_or(0)),
            None if word == "step" => show_step(&mut access, &mut groups, &mut out)?,
            None => access = begun(alloc, word)?,
        }
    }
    Ok(out)
}

// Does a step and shows its outcome.
fn show_step(
    access: &mut Access,
    groups: &mut TwoGroups,
    out: &mut String,
) -> Result<(), NoMemory> {
    if !groups.made_few() {
        return Ok(());
    }
    let outcome = access.step(&mut two_marks(), groups)?;
    if !out.is_empty() {
        out.push(' ')?;
    }
    write!(out, "{outcome:?}").map_err(|_| NoMemory)
}

// The access that a word begins.
fn begun(alloc: Global, word: &str) -> Result<Access, NoMemory> {
    match word {
        "opendir" => at_one(alloc, Op::Opens, root(), b"."),
        "exec" => at_one(alloc, Op::Execs, file(), b"f"),
        "read" => at_one(alloc, Op::Reads, file(), b"f"),
        "list" => at_one(alloc, Op::Reads, root(), b"."),
        "write" => at_one(alloc, Op::Writes, file(), b"f"),
        "close_write" => at_one(alloc, Op::ClosesWrite, file(), b"f"),
        "close_read" => at_one(alloc, Op::ClosesRead, file(), b"f"),
        "attrib" => at_one(alloc, Op::Attribs, file(), b"f"),
        "create" => at_one(alloc, Op::Creates, root(), b"new"),
        "mkdir" => at_one(alloc, Op::MakesDir, root(), b"new"),
        "unlink" => removal(alloc, Op::Unlinks, file(), b"f"),
        "rmdir" => removal(alloc, Op::RemovesDir, sub(), b"sub"),
        "rename" => rename(alloc, file(), b"f", sub(), b"g"),
        "rename_dir" => rename(alloc, sub(), b"sub", root(), b"new"),
        _ => at_one(alloc, Op::Opens, file(), b"f"),
    }
}

// An operation at one spot.
fn at_one(alloc: Global, op: Op, place: Place, name: &[u8]) -> Result<Access, NoMemory>
    requires count { length (told_events op) ≡ 1 }
    requires place { IsPlace place }
    requires name { IsName name.now }
{
    let spots = vec![in alloc; spot(alloc, place, name)?]?;
    Ok(Access::new(op, spots, 41, 42))
}

// The removal of an entry of the root.
fn removal(alloc: Global, op: Op, place: Place, name: &[u8]) -> Result<Access, NoMemory>
    requires count { length (told_events op) ≡ 2 }
    requires place { IsPlace place }
    requires name { IsName name.now }
{
    let spots = vec![in alloc; spot(alloc, root(), name)?, spot(alloc, place, name)?]?;
    Ok(Access::new(op, spots, 41, 42))
}

// An entry of the root is renamed, into another directory or in the root.
fn rename(
    alloc: Global,
    object: Place,
    old: &[u8],
    directory: Place,
    new: &[u8],
) -> Result<Access, NoMemory>
    requires object { IsPlace object }
    requires old { IsName old.now }
    requires directory { IsPlace directory }
    requires new { IsName new.now }
{
    let spots = vec![in alloc;
        spot(alloc, root(), old)?,
        spot(alloc, directory, new)?,
        spot(alloc, object, new)?,
    ]?;
    Ok(Access::new(Op::Renames, spots, 41, 42))
}

// A place with a name.
fn spot(alloc: Global, place: Place, name: &[u8]) -> Result<Spot, NoMemory>
    requires name { IsName name.now }
    ensures { IfOk result (λ spot. spot.place ≡ place) }
{
    let name = Name::of(alloc, name)?;
    Ok(Spot { place, name })
}

// The file.
fn file() -> Place
    ensures { IsPlace result }
{
    Place {
        mount: MOUNT,
        fs: FS,
        inode: FILE,
        parent: Some(ROOT),
        dir: false,
    }
}

// The root of the filesystem.
fn root() -> Place
    ensures { IsPlace result }
{
    Place {
        mount: MOUNT,
        fs: FS,
        inode: ROOT,
        parent: None,
        dir: true,
    }
}

// The directory in the root.
fn sub() -> Place
    ensures { IsPlace result }
{
    Place {
        mount: MOUNT,
        fs: FS,
        inode: SUB,
        parent: Some(ROOT),
        dir: true,
    }
}
