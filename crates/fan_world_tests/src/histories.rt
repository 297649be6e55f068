// Histories of marks that are kept twice, with the lists that fanotify_mark(2) makes of them.
ghost use Rattle.std.specs.Prelude.{◌≡◌, [], OnOk};
ghost use Rattle.fan_bits.specs.Marks.{IsChange};
ghost use Rattle.fan_bits.specs.Places.{IsObject};
ghost use Rattle.fan_grace.specs.Tables.{IsInside, Present, Shows};

use super::both::{Both, takes};
use super::spelled::{change_of, show_done, show_mark};
use fan_bits::{Change, Order};
use fan_grace::Section;
use fan_io::NoMemory;
use std::process::Abort;
use std::test::Fail;

// A line is a history, ' = ', its answers, ' | ' and the list at its end. A word a, r, i, s or j
// with GROUP.RANK.OBJECT.BITS adds to a mask, removes from one, adds to an ignored set, adds to one
// that survives, or removes from one; m adds on a mount. f.GROUP.KIND flushes, c.OBJECT clears,
// g.GROUP and o.OBJECT drop. An answer is whether the list is another one, and how many marks are
// gone. A mark is shown as OBJECT:GROUP.MASK.IGNORED, with s where the ignored set survives.
const HISTORIES: &str = "\
a.1.2.5.32 = 1.0 | 5:1.32.0
a.1.2.5.32 a.1.2.5.1 = 1.0 1.1 | 5:1.33.0
a.1.2.5.32 a.1.2.5.32 = 1.0 0.0 | 5:1.32.0
a.1.2.5.1073741824 = 0.0 |
a.1.2.5.134217728 = 0.0 |
a.1.2.5.32 a.1.2.5.1073741824 = 1.0 1.1 | 5:1.1073741856.0
a.1.2.5.33 r.1.2.5.32 = 1.0 1.1 | 5:1.1.0
a.1.2.5.32 r.1.2.5.32 = 1.0 1.1 |
a.1.2.5.1073741856 r.1.2.5.32 = 1.0 1.1 |
a.1.2.5.32 r.1.2.5.1 = 1.0 0.0 | 5:1.32.0
r.1.2.5.32 = no mark |
a.1.2.5.32 r.1.2.6.32 = 1.0 no mark | 5:1.32.0
a.1.2.5.32 r.2.2.5.32 = 1.0 no mark | 5:1.32.0
a.1.2.5.32 r.1.2.5.32 r.1.2.5.32 = 1.0 1.1 no mark |
i.1.2.5.2 = 1.0 | 5:1.0.2
i.1.2.5.1073741826 = 1.0 | 5:1.0.2
i.1.2.5.1073741824 = 0.0 |
s.1.2.5.2 i.1.2.5.4 = 1.0 1.1 | 5:1.0.6s
a.1.2.5.32 i.1.2.5.2 j.1.2.5.2 = 1.0 1.1 1.1 | 5:1.32.0
i.1.2.5.2 j.1.2.5.2 = 1.0 1.1 |
i.1.2.5.2 c.5 = 1.0 1.1 |
i.1.2.5.2 c.6 = 1.0 0.0 | 5:1.0.2
s.1.2.5.2 c.5 = 1.0 0.0 | 5:1.0.2s
a.1.2.5.32 i.1.2.5.2 c.5 = 1.0 1.1 1.1 | 5:1.32.0
a.1.2.5.32 c.5 = 1.0 0.0 | 5:1.32.0
i.1.2.5.2 i.2.2.5.4 s.3.2.5.8 i.1.2.6.2 c.5 = 1.0 1.0 1.0 1.0 1.2 | 5:3.0.8s 6:1.0.2
a.1.2.5.32 m.1.2.6.32 f.1.0 = 1.0 1.0 1.1 | 6:1.32.0
a.1.2.5.32 m.1.2.6.32 f.1.1 = 1.0 1.0 1.1 | 5:1.32.0
a.1.2.5.32 a.2.2.5.32 a.1.2.6.32 f.1.0 = 1.0 1.0 1.0 1.2 | 5:2.32.0
a.1.2.5.32 f.1.2 = 1.0 0.0 | 5:1.32.0
a.1.2.5.32 a.2.2.5.32 m.1.2.6.1 g.1 = 1.0 1.0 1.0 1.2 | 5:2.32.0
a.1.2.5.32 g.2 = 1.0 0.0 | 5:1.32.0
a.1.2.5.32 a.2.2.5.32 a.1.2.6.1 o.5 = 1.0 1.0 1.0 1.2 | 6:1.1.0
a.1.2.5.32 o.6 = 1.0 0.0 | 5:1.32.0
a.1.2.7.1 a.1.2.3.2 a.1.2.5.4 = 1.0 1.0 1.0 | 3:1.2.0 5:1.4.0 7:1.1.0
a.1.2.5.1 a.2.1.5.1 a.3.0.5.1 a.4.0.5.1 = 1.0 1.0 1.0 1.0 | 5:3.1.0 5:4.1.0 5:2.1.0 5:1.1.0
a.1.2.5.1 a.2.1.5.1 a.3.0.5.1 r.2.1.5.1 = 1.0 1.0 1.0 1.1 | 5:3.1.0 5:1.1.0
a.1.2.5.1 a.2.1.5.1 a.3.0.5.1 a.2.1.5.2 = 1.0 1.0 1.0 1.1 | 5:3.1.0 5:2.3.0 5:1.1.0
";

// Behind the groups of class PreContent, and ahead of all others. No mark has this order.
const BETWEEN: Order = Order(4_294_967_296);

#[test]
fn a_book_and_a_table_have_the_same_history(rt: HostRuntime) -> Result<(), Fail> {
    for line in HISTORIES.lines() {
        let Some((history, wanted)) = line.split_once(" = ") else {
            continue;
        };
        let shown = play(&rt, history)?;
        assert_eq!(rt; shown.as_str(), wanted, "at {history}");
    }
    Ok(())
}

// The answers of a history, and the list at its end. The lists of both are compared behind each
// change.
fn play(rt: &(impl Abort + AllocGlobal), history: &str) -> Result<String, NoMemory> {
    let mut out = String::new(rt.alloc());
    let mut list = String::new(rt.alloc());
    let mut both = Both::new(rt.alloc())?;
    'words: for word in history.split(' ') {
        play_word(rt, &mut both, &change_of(word), &mut out)?;
        list = show_both(rt, &mut both)?;
    }
    out.push('|')?;
    out.push_str(&list)?;
    Ok(out)
}

// Makes one change and shows its answer.
fn play_word(
    rt: &impl Abort,
    both: &mut Both,
    change: &Change,
    out: &mut String,
) -> Result<(), NoMemory>
    requires present { Present both.old.table both.old.book.marks }
    requires nobody { IsInside both.old.table [] }
    ensures present { OnOk result (Present both.new.table both.new.book.marks) }
    ensures nobody { OnOk result (IsInside both.new.table []) }
{
    if !takes(&both.book, change) {
        return Ok(());
    }
    let Some(summaries) = both.change(change)? else {
        return Ok(out.push_str("no mark ")?);
    };
    let [kept, done] = summaries;
    assert_eq!(rt; done, kept, "{change:?}");
    show_done(done, out)
}

// Shows the marks on the first nine objects in a section of its own.
fn show_both(rt: &(impl Abort + AllocGlobal), both: &mut Both) -> Result<String, NoMemory>
    requires present { Present both.old.table both.old.book.marks }
    requires nobody { IsInside both.old.table [] }
    ensures present { OnOk result (Present both.new.table both.new.book.marks) }
    ensures nobody { OnOk result (IsInside both.new.table []) }
{
    let section = both.table.enter();
    let list = show_section(rt, both, &section)?;
    both.table.leave(section);
    Ok(list)
}

// Shows the marks on the first nine objects, which the book and a section give alike.
fn show_section(
    rt: &(impl Abort + AllocGlobal),
    both: &mut Both,
    section: &Section,
) -> Result<String, NoMemory>
    requires shown { Shows both.old.table section.now both.old.book.marks }
    ensures same { both.new ≡ both.old }
{
    let mut list = String::new(rt.alloc());
    'objects: for object in 1..10 {
        show_object(rt, both, section, object, &mut list)?;
    }
    Ok(list)
}

// Shows the marks on an object. The next one behind each of them, and behind other orders, is the
// same from both.
fn show_object(
    rt: &impl Abort,
    both: &mut Both,
    section: &Section,
    object: u32,
    list: &mut String,
) -> Result<(), NoMemory>
    requires object { IsObject object }
    requires shown { Shows both.old.table section.now both.old.book.marks }
    ensures same { both.new ≡ both.old }
{
    let [kept, shown] = both.next(section, object, BETWEEN);
    assert_eq!(rt; shown, kept, "on {object}, behind content");
    let mut after = Order::START;
    'marks: for _ in 0..9 {
        let [kept, shown] = both.next(section, object, after);
        assert_eq!(rt; shown, kept, "on {object}, behind {after:?}");
        let Some(mark) = shown else {
            return Ok(());
        };
        show_mark(mark, list)?;
        after = mark.order();
    }
    Ok(())
}
