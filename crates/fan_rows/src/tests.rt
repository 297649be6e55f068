// A picture made by hand, word by word, and what is found in it.
ghost use Rattle.std.specs.Prelude.{◌≡◌, [], List, IfOk, slice_get};
ghost use Rattle.std.specs.List.{concat};
ghost use Rattle.fan_bits.specs.declared.mark.Mark.{Mark};
ghost use Rattle.fan_bits.specs.Marks.{IsMarkList, next_on};
ghost use Rattle.fan_rows.specs.Trees.{Pictures};

use super::*;
use fan_bits::{Class, Connectors, Kind, Mark, Order};
use std::alloc::{AllocError, Global};
use std::test::Fail;

// Words in a vector, row after row.
#[derive(Drop)]
struct Table {
    words: Vec<u64>,
}

impl Cells for Table {
    ghost words = { λ it place. slice_get it.words.items place };

    ghost rows = { λ it. record { free = []; given = []; retired = [] } };

    fn word(&mut self, at: u64) -> u64 {
        self.words[at as usize]
    }
}

// The marks of two groups on the objects 1, 4, 5 and 65,535, in order.
const MARKS: [Mark; 5] = [
    Mark {
        group: 1,
        class: Class::Notif,
        object: 1,
        kind: Kind::Filesystem,
        mask: 0x20,
        ignored: 0,
        survives: false,
    },
    Mark {
        group: 0xffff_ffff,
        class: Class::Content,
        object: 4,
        kind: Kind::Inode,
        mask: 0x1_0000,
        ignored: 0xffff_ffff,
        survives: true,
    },
    Mark {
        group: 1,
        class: Class::Notif,
        object: 4,
        kind: Kind::Inode,
        mask: 0xffff_ffff,
        ignored: 0,
        survives: false,
    },
    Mark {
        group: 1,
        class: Class::Notif,
        object: 5,
        kind: Kind::Mount,
        mask: 0,
        ignored: 0x8,
        survives: false,
    },
    Mark {
        group: 0xffff_ffff,
        class: Class::Content,
        object: 65_535,
        kind: Kind::Filesystem,
        mask: 0xffff_ffff,
        ignored: 0xffff_ffff,
        survives: true,
    },
];

// The rows that picture them from row 1.
const ROWS: [[u64; 4]; 22] = [
    [0, 0, 0, 0], // none
    [2, 0, 0, 14], // the first digit: 0 or 3
    [3, 0, 0, 0], // 0 down to the sixth
    [4, 0, 0, 0],
    [5, 0, 0, 0],
    [6, 0, 0, 0],
    [7, 0, 0, 0],
    [8, 10, 0, 0], // the seventh: 0 or 1
    [0, 9, 0, 0], // object 1
    [0, 0x20, 0xa_0000_0001, 1], // its mark
    [11, 13, 0, 0], // the objects 4 and 5
    [12, 0xffff_ffff_0001_0000, 0x14_0000_0004, 0xffff_ffff], // the first mark on object 4
    [0, 0xffff_ffff, 0x8_0000_0004, 1], // the second
    [0, 0x8_0000_0000, 0x9_0000_0005, 1], // the mark on object 5
    [0, 0, 0, 15], // 3 down to the eighth
    [0, 0, 0, 16],
    [0, 0, 0, 17],
    [0, 0, 0, 18],
    [0, 0, 0, 19],
    [0, 0, 0, 20],
    [0, 0, 0, 21], // object 65,535
    [0, 0xffff_ffff_ffff_ffff, 0x16_0000_ffff, 0xffff_ffff], // its mark
];

// The words of rows, row after row.
fn joined(alloc: Global, rows: &[[u64; 4]]) -> Result<Vec<u64>, AllocError>
    ensures { IfOk result (λ words. words.items ≡ concat rows.now) }
{
    let mut words = Vec::new(alloc);
    for row in rows {
        words.extend_from_slice(row)?;
    }
    Ok(words)
}

// The marks as the words picture them.
fn pictured(alloc: Global) -> Result<RowConnectors<Table>, AllocError>
    ensures { IfOk result (λ it. (marks : List Mark)
        × Pictures (λ place. slice_get it.cells.words.items place) it.root marks
        × IsMarkList marks) }
{
    let words = joined(alloc, &ROWS)?;
    Ok(RowConnectors::new(Table { words }, 1))
}

// No marks, over no words.
fn empty(alloc: Global) -> RowConnectors<Table>
    ensures { (marks : List Mark)
        × Pictures (λ place. slice_get result.cells.words.items place) result.root marks
        × IsMarkList marks }
{
    let words = Vec::new(alloc);
    RowConnectors::new(Table { words }, 0)
}

// The first mark of a list on an object after an order.
fn find_next(marks: &[Mark], object: u32, after: Order) -> Option<Mark> {
    marks
        .iter()
        .copied()
        .filter(|mark| mark.object == object)
        .find(|mark| mark.order() > after)
}

// Before, at and after the orders of the two groups.
const ORDERS: [Order; 6] = [
    Order::START,
    Order(0x1_ffff_fffe),
    Order(0x1_ffff_ffff),
    Order(0x2_0000_0000),
    Order(0x2_0000_0001),
    Order(0xffff_ffff_ffff_ffff),
];

#[test]
fn finds_what_the_list_says(rt: HostRuntime) -> Result<(), Fail> {
    let mut connectors = pictured(rt.alloc())?;
    for object in 1..65_536 {
        for after in ORDERS {
            let found = connectors.next(object, after);
            assert_eq!(rt;
                found,
                find_next(&MARKS, object, after),
                "at {object} after {after:?}"
            );
        }
    }
    assert_eq!(rt; connectors.into_cells().words.len(), 4 * ROWS.len());
    Ok(())
}

#[test]
fn finds_nothing_from_root_0(rt: HostRuntime) -> Result<(), Fail> {
    let mut connectors = empty(rt.alloc());
    assert_eq!(rt; connectors.next(1, Order::START), None);
    Ok(())
}

// A mark of the least numbers.
fn least(class: Class, kind: Kind) -> Mark {
    Mark {
        group: 1,
        class,
        object: 1,
        kind,
        mask: 1,
        ignored: 0,
        survives: false,
    }
}

#[test]
fn a_row_has_all_fields_of_its_mark(rt: HostRuntime) -> Result<(), Fail> {
    let cases = [
        (least(Class::PreContent, Kind::Inode), 1, 0x1, 1),
        (least(Class::Content, Kind::Inode), 1, 0x4_0000_0001, 1),
        (least(Class::Notif, Kind::Inode), 1, 0x8_0000_0001, 1),
        (least(Class::PreContent, Kind::Mount), 1, 0x1_0000_0001, 1),
        (
            least(Class::PreContent, Kind::Filesystem),
            1,
            0x2_0000_0001,
            1,
        ),
        (
            Mark {
                group: u32::MAX,
                class: Class::Notif,
                object: 65_535,
                kind: Kind::Filesystem,
                mask: u32::MAX,
                ignored: 0x8000_0001,
                survives: true,
            },
            0x8000_0001_ffff_ffff,
            0x1a_0000_ffff,
            0xffff_ffff,
        ),
    ];
    for (mark, sets, object, group) in cases {
        let row = MarkRow {
            sets,
            object,
            group,
        };
        assert_eq!(rt; MarkRow::of(&mark), row, "of {mark:?}");
        assert_eq!(rt; row.mark(), mark, "of {row:?}");
    }
    Ok(())
}
