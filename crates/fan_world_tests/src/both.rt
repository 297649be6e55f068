// The marks of all groups in a book and in a table, which are changed together.
ghost use Rattle.std.specs.Prelude.{◌≡◌, ◌≤◌, ◌<◌, ◌^◌, [], All, IfOk, IsTrue, OnOk};
ghost use Rattle.fan_bits.specs.declared.change.Change.TheVariants.{Put};
ghost use Rattle.fan_bits.specs.Marks.{IsChange};
ghost use Rattle.fan_bits.specs.Places.{IsObject};
ghost use Rattle.fan_grace.specs.Tables.{IsInside, Present, Shows};

use fan_bits::{Change, Changed, Class, Connectors, Mark, MarkWords, Order, Verb};
use fan_grace::{Section, Table};
use fan_io::NoMemory;
use fan_marks::{MarkBook, MarkRefused};
use std::alloc::Global;

// A book and a table with the same marks.
#[derive(Drop)]
pub(crate) struct Both {
    pub(crate) book: MarkBook,
    pub(crate) table: Table,
}

impl Both {
    // No marks, and no section.
    pub(crate) fn new(alloc: Global) -> Result<Both, NoMemory>
        ensures present { IfOk result (λ both. Present both.table both.book.marks) }
        ensures nobody { IfOk result (λ both. IsInside both.table []) }
    {
        Ok(Both {
            book: MarkBook::new(alloc)?,
            table: Table::new(alloc)?,
        })
    }

    // Makes a change in both, and gives the summaries of the book and of the table; None if the
    // book refused it.
    pub(crate) fn change(&mut self, change: &Change) -> Result<Option<[Changed; 2]>, NoMemory>
        requires present { Present self.old.table self.old.book.marks }
        requires nobody { IsInside self.old.table [] }
        requires possible { IsChange self.old.book.marks change.now }
        ensures present { OnOk result (Present self.new.table self.new.book.marks) }
        ensures nobody { OnOk result (IsInside self.new.table []) }
    {
        match self.book.change(change, false) {
            Ok(kept) => Ok(Some([kept, self.table.change(change)?])),
            Err(MarkRefused::NoMemory) => Err(NoMemory),
            Err(_) => Ok(None),
        }
    }

    // The next mark on an object behind an order: by the book, and by a section of the table.
    pub(crate) fn next(&mut self, section: &Section, object: u32, after: Order) -> [Option<Mark>; 2]
        requires object { IsObject object }
        requires shown { Shows self.old.table section.now self.old.book.marks }
        ensures same { self.new ≡ self.old }
    {
        let kept = self.book.next(object, after);
        [kept, self.table.next(section, object, after)]
    }
}

// Whether a change may be made of a book: its numbers are in their ranges, it does what a Put may
// do, and the class is the one of the group's marks.
pub(crate) fn takes(book: &MarkBook, change: &Change) -> bool
    ensures { IsTrue result → IsChange book.now.marks change.now }
{
    match *change {
        Change::Put {
            group,
            class,
            words,
            object,
        } => takes_put(book, group, class, words, object),
        _ => true,
    }
}

// Whether bits may be put on the mark of a group on an object, or taken from it.
fn takes_put(book: &MarkBook, group: u32, class: Class, words: MarkWords, object: u32) -> bool
    ensures { IsTrue result → IsChange book.now.marks (Put group class words object) }
{
    if words.verb == Verb::Flush {
        return false;
    }
    if !is_in_range(group, object) {
        return false;
    }
    has_class(book, group, class)
}

// Whether the numbers are those of a group and of an object.
fn is_in_range(group: u32, object: u32) -> bool
    ensures { IsTrue result → ((1 ≤ group) × (group < 2 ^ 32)) × IsObject object }
{
    group >= 1 && object >= 1 && object <= 65_535
}

// Whether all marks of a group have a class: it has no mark, or one on the first nine objects
// tells.
fn has_class(book: &MarkBook, group: u32, class: Class) -> bool
    ensures { IsTrue result
        → All (λ mark. mark.group ≡ group → mark.class ≡ class) book.now.marks }
{
    if book.count(group) == 0 {
        return true;
    }
    for object in 1..10 {
        if let Some(mark) = book.find(group, object) {
            return mark.class == class;
        }
    }
    false
}
