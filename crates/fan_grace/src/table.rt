// The table of marks: its sections, what they show, and changes.
ghost use Rattle.std.specs.Prelude.{◌≡◌, ◌≢◌, ◌+◌, ◌<◌, ◌^◌, ◌++◌, ◌∷◌, ◌↔◌, [], ℕ, true, List, IfOk, OnErr, OnOk, length, slice_get};
ghost use Rattle.fan_bits.specs.declared.mark.Mark.{Mark};
ghost use Rattle.fan_bits.specs.Marks.{IsChange, IsMarkList, changed, next_on, order_of, retired};
ghost use Rattle.fan_bits.specs.Places.{IsObject};
ghost use Rattle.fan_rows.specs.Rows.{MarkAt};
ghost use Rattle.fan_rows.specs.Trees.{Lies, Pictures, Tree, top};
ghost use Rattle.fan_grace.specs.declared.section.Section.{Section};
ghost use Rattle.fan_grace.specs.Hints.{IsStart};
ghost use Rattle.fan_grace.specs.Tables.{IsInside, Present, Shows, word_at};

use super::cells::TableCells;
use super::changing::change_noted;
use super::hints::{Hint, Hints};
use super::noted::Noted;
use super::section::Section;
use super::stored::StoredRows;
use super::walk::row_above;
use fan_bits::{Change, Changed, Mark, Order};
use fan_io::NoMemory;
use fan_rows::{RowConnectors, connector, mark_at};
use std::alloc::Global;
use std::marker::Model;

/// The marks of all groups, in rows. Who reads enters a section, and sees the marks as they stood
/// then until it leaves.
///
/// Contracts see the words of the rows, the root of the present marks, how many sections are in,
/// and the rows that were given up.
#[derive(Drop)]
pub struct Table {
    rows: StoredRows,
    // On which objects each group has marks.
    noted: Noted,
    // The root of the present marks.
    root: u64,
    // How many sections are in.
    inside: u32,
    // Where the last walks stood.
    hints: Hints,
}

impl Model for Table {
    ghost use Rattle.fan_grace.specs.Tables.{TableState};

    ghost Value = { TableState };

    ghost use Rattle.fan_grace.specs.Hints.{IsTable};

    ghost view = { λ t. record {
      words = t.rows.words;
      root = t.root;
      inside = t.inside;
      waiting = t.rows.retired;
    } };

    ghost invariant = { λ t. IsTable t.rows t.noted.entries t.root t.hints.hints };
}

impl Table {
    /// A table without marks and sections.
    ///
    /// # Errors
    /// `NoMemory` if there was none.
    pub fn new(alloc: Global) -> Result<Table, NoMemory>
        ensures empty { IfOk result (λ table. Present table []) }
        ensures nobody { IfOk result (λ table. IsInside table []) }
    {
        let rows = StoredRows::new(alloc)?;
        Ok(Table {
            rows,
            noted: Noted::new(alloc),
            root: 0,
            inside: 0,
            hints: Hints::new(),
        })
    }

    /// Enters a section, which shows the present marks. Takes no memory.
    pub fn enter(&mut self) -> Section
        requires few { self.old.inside < 2 ^ 31 }
        ensures shown { (marks : List Mark) → Present self.old marks → Shows self.new result marks }
        ensures inside { (sections : List Section) → IsInside self.old sections
            → IsInside self.new (result ∷ sections) }
        ensures stays { (section : Section) (marks : List Mark) → Shows self.old section marks
            → Shows self.new section marks }
        ensures present { (marks : List Mark) → Present self.old marks → Present self.new marks }
        ensures entered { self.new ≡ record self.old { inside = self.old.inside + 1 } }
    {
        self.inside += 1;
        Section {
            phase: 0,
            root: self.root,
        }
    }

    /// Leaves a section. Takes no memory.
    pub fn leave(&mut self, section: Section)
        requires there { (before after : List Section)
            × IsInside self.old (before ++ section ∷ after) }
        ensures inside { (before after : List Section)
            → IsInside self.old (before ++ section ∷ after) → IsInside self.new (before ++ after) }
        ensures stays { (other : Section) (marks : List Mark) → Shows self.old other marks
            → Shows self.new other marks }
        ensures present { (marks : List Mark) → Present self.old marks → Present self.new marks }
        ensures left { self.old ≡ record self.new { inside = self.new.inside + 1 } }
    {
        let Section { phase: _, root: _ } = section;
        self.inside -= 1;
    }

    /// The marks of a section.
    pub fn connectors(&self, section: &Section) -> RowConnectors<TableCells<'_>>
        requires shown { (marks : List Mark) × Shows self.now section.now marks }
        ensures shown { (marks : List Mark) → Shows self.now section.now marks
            → Pictures (λ place. slice_get result.cells.words.now place) result.root marks
            × IsMarkList marks }
    {
        RowConnectors::new(self.rows.cells(), section.root)
    }

    /// The mark of a section on an object with the least order after `after`; None if there is
    /// none. Takes no memory.
    pub fn next(&mut self, section: &Section, object: u32, after: Order) -> Option<Mark>
        requires object { IsObject object }
        requires shown { (marks : List Mark) × Shows self.old section.now marks }
        ensures found { (marks : List Mark) → Shows self.old section.now marks
            → result ≡ next_on marks object after.0 }
        ensures same { self.new ≡ self.old }
    {
        let root = section.root;
        let row = self.walk(root, object, after);
        self.hints.keep(Hint {
            root,
            object,
            low: after,
            row,
        });
        if row == 0 {
            return None;
        }
        Some(mark_at(&mut self.rows.cells(), row))
    }

    // The row of the first mark on an object behind an order, or 0.
    fn walk(&self, root: u64, object: u32, after: Order) -> u64
        requires { (tree : Tree) × Lies (word_at self.now) tree 8 × (top tree ≡ root) }
        ensures walked { IsStart (word_at self.now) root object after.0 result }
        ensures above { result ≢ 0 → (next : ℕ) (mark : Mark)
            → MarkAt (word_at self.now) result next mark → after.0 < order_of mark }
    {
        let first = self.start(root, object, after);
        row_above(&mut self.rows.cells(), first, after)
    }

    // The row at which a walk for a mark on an object begins: where the last one stood, if it went
    // the same way, or else the object's first row.
    fn start(&self, root: u64, object: u32, after: Order) -> u64
        requires { (tree : Tree) × Lies (word_at self.now) tree 8 × (top tree ≡ root) }
        ensures { IsStart (word_at self.now) root object after.0 result }
    {
        match self.hints.start(root, object, after) {
            Some(row) => row,
            None => connector(&mut self.rows.cells(), root, object),
        }
    }

    /// Makes a change of the present marks. Each section goes on showing its marks.
    ///
    /// # Errors
    /// `NoMemory` if no memory was found for new rows.
    pub fn change(&mut self, change: &Change) -> Result<Changed, NoMemory>
        requires possible { (marks : List Mark) × Present self.old marks
            × IsChange marks change.now }
        ensures ok { (marks : List Mark) → Present self.old marks
            → OnOk result (Present self.new (changed marks change.now)) }
        ensures changed { (marks : List Mark) → Present self.old marks → IfOk result (λ done.
            (done.changed ≡ true) ↔ (changed marks change.now ≢ marks)) }
        ensures retired { (marks : List Mark) → Present self.old marks → IfOk result (λ done.
            done.retired ≡ length (retired marks change.now)) }
        ensures inside { (sections : List Section) → IsInside self.old sections
            → IsInside self.new sections }
        ensures stays { (before after : List Section) (section : Section) (marks : List Mark)
            → IsInside self.old (before ++ section ∷ after) → Shows self.old section marks
            → Shows self.new section marks }
        ensures err { OnErr result (self.new ≡ self.old) }
    {
        let made = change_noted(&mut self.rows, &mut self.noted, self.root, change)?;
        let changed = made.root != self.root;
        self.root = made.root;
        Ok(Changed {
            changed,
            retired: made.marks,
        })
    }
}
