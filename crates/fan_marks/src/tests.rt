// Histories of books, with the lists that fanotify_mark(2) makes of them.
ghost use Rattle.std.specs.Prelude.{◌≡◌, ◌≤◌, ◌<◌, ◌^◌, All, IsTrue};
ghost use Rattle.fan_bits.specs.declared.change.Change.TheVariants.{Put};
ghost use Rattle.fan_bits.specs.Marks.{IsChange};
ghost use Rattle.fan_bits.specs.Places.{IsObject};

use super::selection::Selection;
use super::*;
use fan_bits::{Change, Changed, Class, Connectors, Errno, Kind, Mark, MarkWords, Order, Verb};
use fan_io::NoMemory;
use std::alloc::Global;
use std::test::Fail;

// Whether a change may be made of a book: its numbers are in their ranges, it does what a Put may
// do, and the class is the one of the group's marks.
fn takes(book: &MarkBook, change: &Change) -> bool
    ensures { IsTrue result → IsChange book.now.marks change.now }
{
    match *change {
        Change::Put {
            group,
            class,
            words,
            object,
        } => takes_put(book, group, class, words, object),
        _ => true,
    }
}

// Whether bits may be put on the mark of a group on an object, or taken from it.
fn takes_put(book: &MarkBook, group: u32, class: Class, words: MarkWords, object: u32) -> bool
    ensures { IsTrue result → IsChange book.now.marks (Put group class words object) }
{
    if words.verb == Verb::Flush {
        return false;
    }
    if !is_in_range(group, object) {
        return false;
    }
    has_class(book, group, class)
}

// Whether the numbers are those of a group and of an object.
fn is_in_range(group: u32, object: u32) -> bool
    ensures { IsTrue result → ((1 ≤ group) × (group < 2 ^ 32)) × IsObject object }
{
    group >= 1 && object >= 1 && object <= 65_535
}

// Whether all marks of a group have a class: one of them tells.
fn has_class(book: &MarkBook, group: u32, class: Class) -> bool
    ensures { IsTrue result
        → All (λ mark. mark.group ≡ group → mark.class ≡ class) book.now.marks }
{
    let Some(key) = book.first(Selection::OfGroup { group }) else {
        return true;
    };
    match book.get(key) {
        Some(mark) => mark.class == class,
        None => false,
    }
}

// A line is a history, ' = ', its answers, ' | ' and the list at its end. A word a, r, i, s or j
// with GROUP.RANK.OBJECT.BITS adds to a mask, removes from one, adds to an ignored set, adds to one
// that survives, or removes from one; m adds on a mount. f.GROUP.KIND flushes, c.OBJECT clears,
// g.GROUP and o.OBJECT drop. An answer is whether the list is another one, and how many marks are
// gone. A mark is shown as OBJECT:GROUP.MASK.IGNORED, with s where the ignored set survives.
const HISTORIES: &str = "\
a.1.2.5.32 = 1.0 | 5:1.32.0
a.1.2.5.32 a.1.2.5.1 = 1.0 1.1 | 5:1.33.0
a.1.2.5.32 a.1.2.5.32 = 1.0 0.0 | 5:1.32.0
a.1.2.5.1073741824 = 0.0 |
a.1.2.5.134217728 = 0.0 |
a.1.2.5.32 a.1.2.5.1073741824 = 1.0 1.1 | 5:1.1073741856.0
a.1.2.5.33 r.1.2.5.32 = 1.0 1.1 | 5:1.1.0
a.1.2.5.32 r.1.2.5.32 = 1.0 1.1 |
a.1.2.5.1073741856 r.1.2.5.32 = 1.0 1.1 |
a.1.2.5.32 r.1.2.5.1 = 1.0 0.0 | 5:1.32.0
r.1.2.5.32 = no mark |
a.1.2.5.32 r.1.2.6.32 = 1.0 no mark | 5:1.32.0
a.1.2.5.32 r.2.2.5.32 = 1.0 no mark | 5:1.32.0
a.1.2.5.32 r.1.2.5.32 r.1.2.5.32 = 1.0 1.1 no mark |
i.1.2.5.2 = 1.0 | 5:1.0.2
i.1.2.5.1073741826 = 1.0 | 5:1.0.2
i.1.2.5.1073741824 = 0.0 |
s.1.2.5.2 i.1.2.5.4 = 1.0 1.1 | 5:1.0.6s
a.1.2.5.32 i.1.2.5.2 j.1.2.5.2 = 1.0 1.1 1.1 | 5:1.32.0
i.1.2.5.2 j.1.2.5.2 = 1.0 1.1 |
i.1.2.5.2 c.5 = 1.0 1.1 |
i.1.2.5.2 c.6 = 1.0 0.0 | 5:1.0.2
s.1.2.5.2 c.5 = 1.0 0.0 | 5:1.0.2s
a.1.2.5.32 i.1.2.5.2 c.5 = 1.0 1.1 1.1 | 5:1.32.0
a.1.2.5.32 c.5 = 1.0 0.0 | 5:1.32.0
i.1.2.5.2 i.2.2.5.4 s.3.2.5.8 i.1.2.6.2 c.5 = 1.0 1.0 1.0 1.0 1.2 | 5:3.0.8s 6:1.0.2
a.1.2.5.32 m.1.2.6.32 f.1.0 = 1.0 1.0 1.1 | 6:1.32.0
a.1.2.5.32 m.1.2.6.32 f.1.1 = 1.0 1.0 1.1 | 5:1.32.0
a.1.2.5.32 a.2.2.5.32 a.1.2.6.32 f.1.0 = 1.0 1.0 1.0 1.2 | 5:2.32.0
a.1.2.5.32 f.1.2 = 1.0 0.0 | 5:1.32.0
a.1.2.5.32 a.2.2.5.32 m.1.2.6.1 g.1 = 1.0 1.0 1.0 1.2 | 5:2.32.0
a.1.2.5.32 g.2 = 1.0 0.0 | 5:1.32.0
a.1.2.5.32 a.2.2.5.32 a.1.2.6.1 o.5 = 1.0 1.0 1.0 1.2 | 6:1.1.0
a.1.2.5.32 o.6 = 1.0 0.0 | 5:1.32.0
a.1.2.7.1 a.1.2.3.2 a.1.2.5.4 = 1.0 1.0 1.0 | 3:1.2.0 5:1.4.0 7:1.1.0
a.1.2.5.1 a.2.1.5.1 a.3.0.5.1 a.4.0.5.1 = 1.0 1.0 1.0 1.0 | 5:3.1.0 5:4.1.0 5:2.1.0 5:1.1.0
a.1.2.5.1 a.2.1.5.1 a.3.0.5.1 r.2.1.5.1 = 1.0 1.0 1.0 1.1 | 5:3.1.0 5:1.1.0
a.1.2.5.1 a.2.1.5.1 a.3.0.5.1 a.2.1.5.2 = 1.0 1.0 1.0 1.1 | 5:3.1.0 5:2.3.0 5:1.1.0
";

#[test]
fn histories_leave_the_lists_worked_out(rt: HostRuntime) -> Result<(), Fail> {
    for line in HISTORIES.lines() {
        let Some((history, wanted)) = line.split_once(" = ") else {
            continue;
        };
        let shown = play(rt.alloc(), history)?;
        assert_eq!(rt; shown.as_str(), wanted, "at {history}");
    }
    Ok(())
}

// The answers of a history, and the list at its end.
fn play(alloc: Global, history: &str) -> Result<String, NoMemory> {
    let mut out = String::new(alloc);
    let mut book = MarkBook::new(alloc)?;
    for word in history.split(' ') {
        play_word(&mut book, change_of(word), &mut out)?;
    }
    out.push('|')?;
    show_list(&mut book, &mut out, alloc)?;
    Ok(out)
}

// Makes one change and shows its answer.
fn play_word(book: &mut MarkBook, change: Change, out: &mut String) -> Result<(), NoMemory> {
    if !takes(book, &change) {
        return Ok(());
    }
    if book.refusal(&change, false) == Some(Errno::Enoent) {
        out.push_str("no ")?;
    }
    match book.change(&change, false) {
        Ok(done) => show_done(done, out),
        Err(MarkRefused::NoMark) => Ok(out.push_str("mark ")?),
        Err(MarkRefused::Limit { .. }) => Ok(out.push_str("limit ")?),
        Err(MarkRefused::NoMemory) => Err(NoMemory),
    }
}

fn show_done(done: Changed, out: &mut String) -> Result<(), NoMemory> {
    out.push_str(if done.changed { "1." } else { "0." })?;
    show_number(done.retired, out)?;
    Ok(out.push(' ')?)
}

// Shows the marks on the first nine objects, as one walk and as `next` give them.
fn show_list(book: &mut MarkBook, out: &mut String, alloc: Global) -> Result<(), NoMemory> {
    for object in 1..10 {
        let mut marks = Vec::new(alloc);
        book.marks_on(object, &mut marks)?;
        let mut after = Order::START;
        for mark in &marks {
            if next_mark(book, object, after) == Some(*mark) {
                show_mark(*mark, out)?;
            }
            after = mark.order();
        }
    }
    Ok(())
}

// The next mark on an object. That a book holds a list of marks is said by `find`.
fn next_mark(book: &mut MarkBook, object: u32, after: Order) -> Option<Mark>
    requires { IsObject object }
{
    let _ = book.find(1, object);
    book.next(object, after)
}

fn show_mark(mark: Mark, out: &mut String) -> Result<(), NoMemory> {
    out.push(' ')?;
    show_number(mark.object, out)?;
    out.push(':')?;
    show_number(mark.group, out)?;
    out.push('.')?;
    show_number(mark.mask, out)?;
    out.push('.')?;
    show_number(mark.ignored, out)?;
    if mark.survives {
        out.push('s')?;
    }
    Ok(())
}

fn show_number(number: u32, out: &mut String) -> Result<(), NoMemory> {
    match write!(out, "{number}") {
        Ok(()) => Ok(()),
        Err(_) => Err(NoMemory),
    }
}

// The change that a word names.
fn change_of(word: &str) -> Change {
    let mut parts = word.split('.');
    let name = parts.next().unwrap_or("");
    let first = number(parts.next());
    let second = number(parts.next());
    let third = number(parts.next());
    let bits = number(parts.next());
    match name {
        "f" => Change::Flush {
            group: first,
            kind: kind_of(second),
        },
        "c" => Change::Clear { object: first },
        "g" => Change::DropGroup { group: first },
        "o" => Change::DropObject { object: first },
        _ => Change::Put {
            group: first,
            class: class_of(second),
            words: words_of(name, bits),
            object: third,
        },
    }
}

// A number of a word, or 0 where there is none.
fn number(part: Option<&str>) -> u32 {
    match part {
        Some(text) => text.parse::<u32>().unwrap_or(0),
        None => 0,
    }
}

fn class_of(rank: u32) -> Class {
    match rank {
        0 => Class::PreContent,
        1 => Class::Content,
        _ => Class::Notif,
    }
}

fn kind_of(number: u32) -> Kind {
    match number {
        0 => Kind::Inode,
        1 => Kind::Mount,
        _ => Kind::Filesystem,
    }
}

fn words_of(name: &str, mask: u32) -> MarkWords {
    MarkWords {
        verb: match name {
            "r" | "j" => Verb::Remove,
            _ => Verb::Add,
        },
        kind: match name {
            "m" => Kind::Mount,
            _ => Kind::Inode,
        },
        only_dir: false,
        ignored: matches!(name, "i" | "s" | "j"),
        survives: matches!(name, "s"),
        mask,
    }
}

#[test]
fn a_group_has_8192_marks_at_most(rt: HostRuntime) -> Result<(), Fail> {
    let mut book = MarkBook::new(rt.alloc())?;
    for object in 1..8193 {
        put(&mut book, 1, object, false)?;
    }
    assert_eq!(rt; book.count(1), 8192);
    assert_eq!(rt;
        put(&mut book, 1, 8193, false),
        Err(MarkRefused::Limit { marks: 8192 })
    );
    assert_eq!(rt; book.find(1, 8193), None);
    assert!(rt; put(&mut book, 1, 8192, false).is_ok());
    assert!(rt; put(&mut book, 2, 8193, false).is_ok());
    assert!(rt; put(&mut book, 1, 8193, true).is_ok());
    assert_eq!(rt; book.count(1), 8193);
    assert_eq!(rt; book.count(2), 1);
    Ok(())
}

// Adds FAN_OPEN to the mark of a group on an object.
fn put(
    book: &mut MarkBook,
    group: u32,
    object: u32,
    unlimited: bool,
) -> Result<Changed, MarkRefused> {
    let change = Change::Put {
        group,
        class: Class::Notif,
        words: words_of("a", 0x20),
        object,
    };
    if !takes(book, &change) {
        return Err(MarkRefused::NoMark);
    }
    book.change(&change, unlimited)
}

#[test]
fn room_is_made_ahead(rt: HostRuntime) -> Result<(), Fail> {
    let mut book = MarkBook::new(rt.alloc())?;
    book.reserve()?;
    assert!(rt; put(&mut book, 1, 5, false).is_ok());
    Ok(())
}
