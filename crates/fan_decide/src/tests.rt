// Interests of several marks, worked out from fanotify_mark(2).
ghost use Rattle.std.specs.Prelude.{◌≡◌, true, IsTrue, IfOk, OnOk, All};
ghost use Rattle.fan_bits.specs.Marks.{IsMark, IsMarkList, is_before, next_on, order_of};
ghost use Rattle.fan_bits.specs.Places.{IsPlace};

use super::*;
use fan_bits::{
    Class, Connectors, FAN_EVENT_ON_CHILD as EVENT_ON_CHILD, FAN_ONDIR as ONDIR, FAN_OPEN as OPEN,
    FAN_OPEN_PERM as OPEN_PERM, Happening, Kind, Mark, Order, Place,
};
use std::alloc::{AllocError, Global};
use std::test::Fail;

// FAN_ACCESS and FAN_DELETE_SELF of fanotify_mark(2).
const ACCESS: u32 = 0x1;

const DELETE_SELF: u32 = 0x400;

// A filesystem and two mounts of it; a directory on it, with a directory, with a file.
const FS: u32 = 1;

const MOUNT: u32 = 2;

const OTHER_MOUNT: u32 = 3;

const ROOT: u32 = 4;

const DIRECTORY: u32 = 5;

const FILE: u32 = 6;

// Marks in their order, searched from the front.
#[derive(Drop)]
struct MarkList {
    marks: Vec<Mark>,
}

impl Connectors for MarkList {
    ghost shows = { λ it marks. (marks ≡ it.marks.items) × IsMarkList marks };

    ghost is_list = { λ it marks shown. shown.1 };

    fn next(&mut self, object: u32, after: Order) -> Option<Mark> {
        find_next(&self.marks, object, after)
    }
}

// The mark on an object with the least order after `after`.
fn find_next(marks: &[Mark], object: u32, after: Order) -> Option<Mark>
    ensures { result ≡ next_on marks.now object after.0 }
{
    marks
        .iter()
        .copied()
        .filter(|mark| mark.object == object)
        .find(|mark| mark.order() > after)
}

// The marks, without those that may not follow the ones before them.
fn listed(alloc: Global, marks: &[Mark]) -> Result<MarkList, AllocError>
    ensures { IfOk result (λ list. IsMarkList list.marks.items) }
{
    let mut list = MarkList {
        marks: Vec::new(alloc),
    };
    for mark in marks {
        list.add(*mark)?;
    }
    Ok(list)
}

impl MarkList {
    // Adds a mark at the end, if it may be there.
    fn add(&mut self, mark: Mark) -> Result<(), AllocError>
        requires { IsMarkList self.old.marks.items }
        ensures { OnOk result (IsMarkList self.new.marks.items) }
    {
        if !may_stand(mark) || !may_follow(&self.marks, mark) {
            return Ok(());
        }
        self.marks.push(mark)?;
        Ok(())
    }
}

// Whether the numbers of a mark are in their ranges, and it has an event.
fn may_stand(mark: Mark) -> bool
    ensures { IsTrue result → IsMark mark }
{
    if mark.group == 0 || mark.object == 0 || mark.object > 65535 {
        return false;
    }
    mark.mask & !(ONDIR | EVENT_ON_CHILD) != 0 || mark.ignored != 0
}

// Whether a mark may follow others.
fn may_follow(marks: &[Mark], mark: Mark) -> bool
    ensures { IsTrue result → All (λ other. (is_before mark.object (order_of mark) other ≡ true)
        × (other.group ≡ mark.group → other.class ≡ mark.class)) marks.now }
{
    marks.iter().all(|other| may_precede(*other, mark))
}

// Whether a mark comes before another, and has its class if it has its group.
fn may_precede(mark: Mark, other: Mark) -> bool
    ensures { IsTrue result → (is_before other.object (order_of other) mark ≡ true)
        × (mark.group ≡ other.group → mark.class ≡ other.class) }
{
    if mark.group == other.group && mark.class != other.class {
        return false;
    }
    mark.object < other.object || (mark.object == other.object && mark.order() < other.order())
}

// A mark of a group of the class that is never asked.
fn mark(group: u32, object: u32, mask: u32) -> Mark {
    Mark {
        group,
        class: Class::Notif,
        object,
        kind: Kind::Inode,
        mask,
        ignored: 0,
        survives: false,
    }
}

// The same with an ignored set, and nothing in its mask but qualifiers.
fn ignoring(group: u32, object: u32, ignored: u32, mask: u32) -> Mark {
    Mark {
        ignored,
        ..mark(group, object, mask)
    }
}

// The same of a group of another class.
fn of_class(class: Class, group: u32, object: u32, mask: u32) -> Mark {
    Mark {
        class,
        ..mark(group, object, mask)
    }
}

// Something that happens to the file.
fn on_file(bits: u32) -> Happening
    ensures { IsPlace result.place }
{
    Happening {
        place: Place {
            mount: MOUNT,
            fs: FS,
            inode: FILE,
            parent: Some(DIRECTORY),
            dir: false,
        },
        bits,
        ondir: false,
        entry: false,
    }
}

// Something that happens to the file's directory.
fn on_directory(bits: u32) -> Happening
    ensures { IsPlace result.place }
{
    Happening {
        place: Place {
            mount: MOUNT,
            fs: FS,
            inode: DIRECTORY,
            parent: Some(ROOT),
            dir: true,
        },
        bits,
        ondir: true,
        entry: false,
    }
}

// What the first group that wants something wants.
fn wanted(alloc: Global, marks: &[Mark], happening: &Happening) -> Result<Option<u32>, AllocError>
    requires { IsPlace happening.now.place }
{
    let mut list = listed(alloc, marks)?;
    Ok(next_interest(&mut list, happening, Order::START).map(|interest| interest.bits))
}

// All groups that want something, each with what it wants.
fn all_wanted(
    alloc: Global,
    marks: &[Mark],
    happening: &Happening,
) -> Result<Vec<(u32, u32)>, AllocError>
    requires { IsPlace happening.now.place }
{
    let mut list = listed(alloc, marks)?;
    let mut found = Vec::new(alloc);
    let mut after = Order::START;
    for _ in 0..marks.len() {
        let Some(interest) = next_interest(&mut list, happening, after) else {
            break;
        };
        found.push((interest.group, interest.bits))?;
        after = interest.order();
    }
    Ok(found)
}

#[test]
fn a_mark_on_the_parent_needs_event_on_child(rt: HostRuntime) -> Result<(), Fail> {
    let cases = [
        (mark(1, DIRECTORY, OPEN), OPEN, None),
        (mark(1, DIRECTORY, OPEN | EVENT_ON_CHILD), OPEN, Some(OPEN)),
        (
            mark(1, DIRECTORY, OPEN | EVENT_ON_CHILD),
            OPEN | ACCESS,
            Some(OPEN),
        ),
        (
            mark(1, DIRECTORY, OPEN_PERM | EVENT_ON_CHILD),
            OPEN_PERM,
            Some(OPEN_PERM),
        ),
        (
            mark(1, DIRECTORY, DELETE_SELF | EVENT_ON_CHILD),
            DELETE_SELF,
            None,
        ),
        (mark(1, ROOT, OPEN | EVENT_ON_CHILD), OPEN, None),
        (mark(1, FILE, DELETE_SELF), DELETE_SELF, Some(DELETE_SELF)),
    ];
    for (mark, bits, bits_wanted) in cases {
        let found = wanted(rt.alloc(), &[mark], &on_file(bits))?;
        assert_eq!(rt; found, bits_wanted, "at {mark:?}");
    }
    Ok(())
}

#[test]
fn a_directory_needs_ondir(rt: HostRuntime) -> Result<(), Fail> {
    let cases = [
        (mark(1, DIRECTORY, OPEN), None),
        (mark(1, DIRECTORY, OPEN | ONDIR), Some(OPEN)),
        (mark(1, ROOT, OPEN | EVENT_ON_CHILD), None),
        (mark(1, ROOT, OPEN | EVENT_ON_CHILD | ONDIR), Some(OPEN)),
        (mark(1, FS, OPEN), None),
        (mark(1, FS, OPEN | ONDIR), Some(OPEN)),
    ];
    for (mark, bits_wanted) in cases {
        let found = wanted(rt.alloc(), &[mark], &on_directory(OPEN))?;
        assert_eq!(rt; found, bits_wanted, "at {mark:?}");
    }
    Ok(())
}

#[test]
fn marks_on_mount_and_filesystem_reach_what_is_on_them(rt: HostRuntime) -> Result<(), Fail> {
    let cases = [(MOUNT, Some(OPEN)), (OTHER_MOUNT, None), (FS, Some(OPEN))];
    for (object, bits_wanted) in cases {
        let found = wanted(rt.alloc(), &[mark(1, object, OPEN)], &on_file(OPEN))?;
        assert_eq!(rt; found, bits_wanted, "at {object}");
    }
    Ok(())
}

#[test]
fn an_ignored_set_takes_events_from_its_group(rt: HostRuntime) -> Result<(), Fail> {
    let on_mount = [
        ignoring(1, MOUNT, OPEN, 0),
        mark(1, FILE, OPEN | ACCESS),
        mark(2, FILE, OPEN),
    ];
    let found = all_wanted(rt.alloc(), &on_mount, &on_file(OPEN | ACCESS))?;
    assert_eq!(rt; found.as_slice(), [(1, ACCESS), (2, OPEN)].as_slice());

    let on_parent = [ignoring(1, DIRECTORY, OPEN, 0), mark(1, FILE, OPEN)];
    assert_eq!(rt; wanted(rt.alloc(), &on_parent, &on_file(OPEN))?, Some(OPEN));

    let for_children = [
        ignoring(1, DIRECTORY, OPEN, EVENT_ON_CHILD),
        mark(1, FILE, OPEN),
    ];
    assert_eq!(rt; wanted(rt.alloc(), &for_children, &on_file(OPEN))?, None);

    let on_fs = [ignoring(1, FS, OPEN, 0), mark(1, DIRECTORY, OPEN | ONDIR)];
    assert_eq!(rt; wanted(rt.alloc(), &on_fs, &on_directory(OPEN))?, None);
    Ok(())
}

#[test]
fn groups_come_by_class_and_then_by_number(rt: HostRuntime) -> Result<(), Fail> {
    let marks = [
        of_class(Class::Notif, 2, FS, OPEN),
        of_class(Class::PreContent, 4, MOUNT, OPEN),
        of_class(Class::PreContent, 3, DIRECTORY, ACCESS | EVENT_ON_CHILD),
        of_class(Class::PreContent, 3, FILE, OPEN),
        of_class(Class::Content, 1, FILE, OPEN),
        of_class(Class::Content, 5, FILE, DELETE_SELF),
    ];
    let found = all_wanted(rt.alloc(), &marks, &on_file(OPEN | ACCESS))?;
    let in_order = [(3, OPEN | ACCESS), (4, OPEN), (1, OPEN), (2, OPEN)];
    assert_eq!(rt; found.as_slice(), in_order.as_slice());
    Ok(())
}
