// Changes in a small memory of rows, against numbers that were counted on drawn trees.
ghost use Rattle.std.specs.Prelude.{◌≡◌, ◌≤◌, ◌<◌, ◌^◌, [], IfOk, IsTrue, List, length};
ghost use Rattle.fan_bits.specs.declared.change.Change.TheVariants.{Put};
ghost use Rattle.fan_bits.specs.declared.mark.Mark.{Mark};
ghost use Rattle.fan_bits.specs.Places.{IsObject};
ghost use Rattle.fan_build.specs.Standing.{IsPossible, Stands, rows_at, word_at};

use super::*;
use fan_bits::{Change, Class, Kind, MarkWords, Verb};
use fan_rows::Cells;
use std::alloc::{AllocError, Global};
use std::process::Abort;
use std::test::Fail;

// How many rows the memory has, with row 0, which is none.
const ROWS: usize = 128;

// Rows in a vector, which are given out one after another.
#[derive(Drop)]
struct Memory<'a, R: Abort> {
    rt: &'a R,
    rows: Vec<[u64; 4]>,
    next: u64,
    retired: Vec<u64>,
}

impl<'a, R: Abort> Cells for Memory<'a, R> {
    ghost words = { λ it place. word_at it.rows.items place };

    ghost rows = { λ it. rows_at it.next (length it.rows.items) it.retired.items };

    fn word(&mut self, at: u64) -> u64 {
        self.rows[(at / 4) as usize][(at % 4) as usize]
    }
}

impl<'a, R: Abort> NewRows for Memory<'a, R> {
    fn fresh(&mut self) -> u64 {
        let row = self.next;
        assert!(self.rt; row > 0);
        assert!(self.rt; row < 1 << 62);
        self.next += 1;
        row
    }

    fn write(&mut self, row: u64, words: [u64; 4]) {
        let at = row as usize;
        assert!(self.rt; at < self.rows.len());
        self.rows[at] = words;
    }

    fn retire(&mut self, row: u64) {
        self.retired
            .push(row)
            .expect(self.rt, "a vector that grows");
    }
}

// Rows that are counted.
trait Counted: NewRows {
    // How many rows are free.
    fn room(&self) -> u64
        ensures { result ≡ length (Self.rows self.now).free };
}

impl<'a, R: Abort> Counted for Memory<'a, R> {
    fn room(&self) -> u64 {
        (self.rows.len() as u64).saturating_sub(self.next)
    }
}

// A memory without marks.
fn empty<'a, R: Abort>(rt: &'a R, alloc: Global) -> Result<Memory<'a, R>, AllocError>
    ensures { IfOk result (λ memory. Stands (word_at memory.rows.items)
        (rows_at memory.next (length memory.rows.items) memory.retired.items) 0 []) }
{
    Ok(Memory {
        rt,
        rows: vec![in alloc; [0; 4]; ROWS]?,
        next: 1,
        retired: Vec::new(alloc),
    })
}

// Whether a change can be made of marks of class FAN_CLASS_NOTIF.
fn is_possible(change: &Change) -> bool
    ensures { IsTrue result → IsPossible change.now }
{
    match *change {
        Change::Put {
            group,
            class,
            words,
            object,
        } => is_possible_put(group, class, words, object),
        _ => true,
    }
}

// Whether bits can be put on the mark of a group on an object, or taken from it.
fn is_possible_put(group: u32, class: Class, words: MarkWords, object: u32) -> bool
    ensures { IsTrue result → IsPossible (Put group class words object) }
{
    if words.verb == Verb::Flush {
        return false;
    }
    if class != Class::Notif {
        return false;
    }
    is_in_range(group, object)
}

// Whether the numbers are those of a group and of an object.
fn is_in_range(group: u32, object: u32) -> bool
    ensures { IsTrue result → ((1 ≤ group) × (group < 2 ^ 32)) × IsObject object }
{
    group >= 1 && object >= 1 && object <= 65_535
}

// Makes a change, if it is possible and there is room. Tells how many rows it needs.
fn make<N: Counted>(rt: &impl Abort, rows: &mut N, root: u64, change: &Change) -> (u64, Built)
    requires { (marks : List Mark) × Stands (N.words rows.old) (N.rows rows.old) root marks }
    ensures { (marks : List Mark)
        × Stands (N.words rows.new) (N.rows rows.new) result.1.root marks }
{
    assert!(rt; is_possible(change), "{change:?}");
    let needed = rows_needed(rows, root, change);
    assert!(rt; needed <= rows.room(), "{needed}");
    (needed, publish_rows(rows, root, change))
}

// Makes its part on one object.
fn make_on<N: Counted>(
    rt: &impl Abort,
    rows: &mut N,
    root: u64,
    change: &Change,
    object: u32,
) -> (u64, Built)
    requires { (marks : List Mark) × Stands (N.words rows.old) (N.rows rows.old) root marks }
    ensures { (marks : List Mark)
        × Stands (N.words rows.new) (N.rows rows.new) result.1.root marks }
{
    assert!(rt; is_possible(change), "{change:?}");
    let needed = rows_needed_on(rows, root, change, object);
    assert!(rt; needed <= rows.room(), "{needed}");
    (needed, publish_on(rows, root, change, object))
}

// A line is a history, ' =', and for each of its changes the rows that it needs, the marks and the
// rows that it retires. A word a, b, i, s or r with GROUP.OBJECT adds FAN_OPEN or FAN_ACCESS to a
// mask, FAN_MODIFY to an ignored set, or to one that survives, or removes FAN_OPEN; m adds on a
// mount. f.GROUP flushes the marks on inodes, c.OBJECT clears, g.GROUP and o.OBJECT drop. With
// @OBJECT behind it a change is made on that object alone. Behind the numbers stands '-' where no
// mark is left, and '=' where the root stays.
const HISTORIES: &str = "\
a.1.4 r.1.4 = 9.0.0 0.1.9-
a.1.4 a.2.4 = 9.0.0 10.0.9
a.2.4 a.1.4 = 9.0.0 9.0.8
a.1.4 a.1.5 = 9.0.0 9.0.8
a.1.4 a.1.5 r.1.4 = 9.0.0 9.0.8 8.1.9
a.1.1 a.1.65535 = 9.0.0 9.0.1
a.1.1 a.1.65535 r.1.65535 = 9.0.0 9.0.1 1.1.9
a.1.1 a.1.4 r.1.4 = 9.0.0 9.0.7 7.1.9
a.5.4 a.4.4 a.3.4 a.2.4 a.1.4 r.3.4 = 9.0.0 9.0.8 9.0.8 9.0.8 9.0.8 10.1.11
a.5.4 a.4.4 a.3.4 a.2.4 a.1.4 r.1.4 = 9.0.0 9.0.8 9.0.8 9.0.8 9.0.8 8.1.9
a.5.4 a.4.4 a.3.4 a.2.4 a.1.4 r.5.4 = 9.0.0 9.0.8 9.0.8 9.0.8 9.0.8 12.1.13
a.5.4 a.4.4 a.3.4 a.2.4 a.1.4 b.3.4 = 9.0.0 9.0.8 9.0.8 9.0.8 9.0.8 11.1.11
a.1.4 a.1.4 = 9.0.0 0.0.0=
a.1.4 r.2.4 = 9.0.0 0.0.0=
r.1.4 = 0.0.0=
a.1.4 i.2.4 s.3.4 c.4 = 9.0.0 10.0.9 11.0.10 9.1.10
a.1.4 s.2.4 c.4 = 9.0.0 10.0.9 0.0.0=
a.1.4 i.1.4 c.4 = 9.0.0 9.1.9 9.1.9
i.1.4 c.4 = 9.0.0 0.1.9-
i.1.4 c.5 = 9.0.0 0.0.0=
i.1.5 c.262149 = 9.0.0 0.0.0=
a.1.1 a.1.4 a.1.65535 f.1 = 9.0.0 9.0.7 9.0.1 0.3.19-
a.1.1 a.1.4 a.2.4 a.1.65535 f.1 = 9.0.0 9.0.7 10.0.9 9.0.1 8.3.19
a.1.1 a.2.4 a.1.4 a.2.65535 f.2 = 9.0.0 9.0.7 9.0.8 9.0.1 9.2.18
a.1.4 m.1.5 f.1 = 9.0.0 9.0.8 8.1.9
a.1.4 f.2 = 9.0.0 0.0.0=
f.1 = 0.0.0=
a.1.4 a.2.4 a.1.5 o.4 = 9.0.0 10.0.9 9.0.8 8.2.10
a.1.4 a.2.4 o.4 = 9.0.0 10.0.9 0.2.10-
a.1.4 o.5 = 9.0.0 0.0.0=
a.1.4 a.2.4 a.1.5 g.1 = 9.0.0 10.0.9 9.0.8 8.2.10
a.1.4 a.2.4 g.2 = 9.0.0 10.0.9 9.1.10
a.1.4 g.2 = 9.0.0 0.0.0=
a.1.1 a.1.4 a.2.4 f.1@4 = 9.0.0 9.0.7 10.0.9 8.1.9
a.1.1 a.1.4 a.1.65535 f.1@4 f.1@65535 f.1@1 = 9.0.0 9.0.7 9.0.1 7.1.9 1.1.9 0.1.9-
a.1.4 a.2.4 a.3.4 g.2@4 = 9.0.0 10.0.9 11.0.10 9.1.10
a.1.4 a.2.4 o.4@4 = 9.0.0 10.0.9 0.2.10-
a.1.4 o.4@5 = 9.0.0 0.0.0=
i.1.4 i.1.5 c.4@4 c.5@4 = 9.0.0 9.0.8 8.1.9 0.0.0=
a.1.5 f.1@4 f.1@262149 = 9.0.0 0.0.0= 0.0.0=
a.1.4@5 a.1.4@4 = 0.0.0= 9.0.0
";

#[test]
fn changes_take_and_retire_the_rows_that_were_counted(rt: HostRuntime) -> Result<(), Fail> {
    for line in HISTORIES.lines() {
        let Some((history, wanted)) = line.split_once(" =") else {
            continue;
        };
        let mut out = String::new(rt.alloc());
        let mut memory = empty(&rt, rt.alloc())?;
        play(&rt, &mut memory, history, &mut out)?;
        assert_eq!(rt; out.as_str(), wanted, "at {history}");
    }
    Ok(())
}

// Makes the changes of a history from row 0 on, and shows what each takes and retires.
fn play<N: Counted>(
    rt: &impl Abort,
    rows: &mut N,
    history: &str,
    out: &mut String,
) -> Result<(), Fail>
    requires { (marks : List Mark) × Stands (N.words rows.old) (N.rows rows.old) 0 marks }
{
    let mut root = 0;
    for word in history.split(' ') {
        let (needed, built) = make_word(rt, rows, root, word);
        let end = match built.root {
            same if same == root => "=",
            0 => "-",
            _ => "",
        };
        write!(
            out,
            " {needed}.{}.{}{end}",
            built.marks_retired, built.rows_retired
        )?;
        root = built.root;
    }
    Ok(())
}

// Makes the change that a word names, or its part on an object.
fn make_word<N: Counted>(rt: &impl Abort, rows: &mut N, root: u64, word: &str) -> (u64, Built)
    requires { (marks : List Mark) × Stands (N.words rows.old) (N.rows rows.old) root marks }
    ensures { (marks : List Mark)
        × Stands (N.words rows.new) (N.rows rows.new) result.1.root marks }
{
    match word.split_once('@') {
        Some((name, object)) => make_on(rt, rows, root, &change_of(name), number(Some(object))),
        None => make(rt, rows, root, &change_of(word)),
    }
}

// The change that a word names.
fn change_of(word: &str) -> Change {
    let mut parts = word.split('.');
    let name = parts.next().unwrap_or("");
    let first = number(parts.next());
    let second = number(parts.next());
    match name {
        "f" => Change::Flush {
            group: first,
            kind: Kind::Inode,
        },
        "c" => Change::Clear { object: first },
        "g" => Change::DropGroup { group: first },
        "o" => Change::DropObject { object: first },
        _ => Change::Put {
            group: first,
            class: Class::Notif,
            words: words_of(name),
            object: second,
        },
    }
}

// A number of a word, or 0 where there is none.
fn number(part: Option<&str>) -> u32 {
    match part {
        Some(text) => text.parse::<u32>().unwrap_or(0),
        None => 0,
    }
}

fn words_of(name: &str) -> MarkWords {
    MarkWords {
        verb: match name {
            "r" => Verb::Remove,
            _ => Verb::Add,
        },
        kind: match name {
            "m" => Kind::Mount,
            _ => Kind::Inode,
        },
        only_dir: false,
        ignored: matches!(name, "i" | "s"),
        survives: matches!(name, "s"),
        mask: match name {
            "b" => 0x1,
            "i" | "s" => 0x2,
            _ => 0x20,
        },
    }
}
