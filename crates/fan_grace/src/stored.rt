// Rows in a vector: those that were given out, and behind them those that are free.
ghost use Rattle.std.specs.Prelude.{◌≡◌, ◌≢◌, ◌≤◌, ◌<◌, ◌+◌, ◌++◌, ◌*◌, ◌/◌, ℕ, [], List, IfOk, OnErr, OnOk, length, replicate, slice_get};
ghost use Rattle.fan_bits.specs.declared.mark.Mark.{Mark};
ghost use Rattle.fan_bits.specs.Marks.{changed};
ghost use Rattle.fan_rows.specs.Trees.{Tree};
ghost use Rattle.fan_build.specs.Objects.{changed_on};
ghost use Rattle.fan_grace.specs.Stored.{CanMake, IsMade, IsStored, cut, listed_rows};

use super::cells::TableCells;
use super::made::Made;
use fan_bits::Change;
use fan_build::{NewRows, publish_on, publish_rows, rows_needed, rows_needed_on};
use fan_io::NoMemory;
use fan_rows::Cells;
use std::alloc::Global;
use std::marker::Model;

/// The rows of a table. Row 0 is none; its words stand there, and are 0.
#[derive(Drop)]
pub(crate) struct StoredRows {
    // The words of all rows.
    words: Vec<u64>,
    // The first row that was never given out.
    next: u64,
    // The rows that were given up, with room for all rows.
    retired: Vec<u64>,
}

/// How many rows there are, and how many were given up.
#[derive(Clone, Copy)]
pub(crate) struct Extent {
    pub(crate) rows: u64,
    pub(crate) retired: usize,
}

impl Model for StoredRows {
    ghost use Rattle.std.specs.Prelude.{◌≤◌, vec_capacity};
    ghost use Rattle.fan_grace.specs.Stored.{IsStored, StoredState, row_count};

    ghost Value = { StoredState };

    ghost view = { λ s. record {
      words = s.words.items;
      next = s.next;
      retired = s.retired.items;
    } };

    ghost invariant = { λ s. IsStored (record {
      words = s.words.items;
      next = s.next;
      retired = s.retired.items;
    }) × (row_count s.words.items ≤ vec_capacity s.retired) };
}

impl StoredRows {
    /// No rows but row 0.
    pub(crate) fn new(alloc: Global) -> Result<StoredRows, NoMemory>
        ensures words { IfOk result (λ rows. rows.words ≡ replicate 4 0) }
        ensures next { IfOk result (λ rows. rows.next ≡ 1) }
        ensures retired { IfOk result (λ rows. rows.retired ≡ []) }
    {
        Ok(StoredRows {
            words: vec![in alloc; 0; 4]?,
            next: 1,
            retired: Vec::with_capacity(alloc, 1)?,
        })
    }

    /// The words, to read.
    pub(crate) fn cells(&self) -> TableCells<'_>
        ensures { result.words.now ≡ self.now.words }
    {
        TableCells::new(&self.words)
    }

    /// Makes a change of the marks that are pictured from a root.
    ///
    /// # Errors
    /// `NoMemory` if no memory was found for the rows that it takes; nothing is changed then.
    pub(crate) fn change(&mut self, root: u64, change: &Change) -> Result<Made, NoMemory>
        requires { (marks : List Mark) × (tree : Tree)
            × CanMake self.old root marks tree change.now }
        ensures made { (marks : List Mark) (tree : Tree)
            → CanMake self.old root marks tree change.now
            → IfOk result (IsMade self.old self.new root marks (changed marks change.now)) }
        ensures err { OnErr result (self.new ≡ self.old) }
    {
        let needed = rows_needed(&mut self.cells(), root, change);
        self.make_room(needed)?;
        let built = publish_rows(self, root, change);
        let _ = &self.words; // What stands in it is still a number of rows.
        Ok(Made::of(built))
    }

    /// Makes a change on one object.
    ///
    /// # Errors
    /// `NoMemory` if no memory was found for the rows that it takes; nothing is changed then.
    pub(crate) fn change_on(
        &mut self,
        root: u64,
        change: &Change,
        object: u32,
    ) -> Result<Made, NoMemory>
        requires { (marks : List Mark) × (tree : Tree)
            × CanMake self.old root marks tree change.now }
        ensures made { (marks : List Mark) (tree : Tree)
            → CanMake self.old root marks tree change.now → IfOk result
            (IsMade self.old self.new root marks (changed_on marks change.now object)) }
        ensures err { OnErr result (self.new ≡ self.old) }
    {
        let needed = rows_needed_on(&mut self.cells(), root, change, object);
        self.make_room(needed)?;
        let built = publish_on(self, root, change, object);
        let _ = &self.words; // The same.
        Ok(Made::of(built))
    }

    // Adds so many free rows.
    fn make_room(&mut self, count: u64) -> Result<(), NoMemory>
        ensures words { OnOk result (self.new.words ≡ self.old.words ++ replicate (4 * count) 0) }
        ensures next { self.new.next ≡ self.old.next }
        ensures retired { self.new.retired ≡ self.old.retired }
        ensures stored { IsStored self.new }
        ensures err { OnErr result (self.new ≡ self.old) }
    {
        let rows = (self.words.len() / 4)
            .checked_add(count as usize)
            .ok_or(NoMemory)?;
        let length = rows.checked_mul(4).ok_or(NoMemory)?;
        self.retired
            .reserve(rows.saturating_sub(self.retired.len()))?;
        self.words.resize(length, 0)?;
        Ok(())
    }

    /// How many rows there are, with row 0, and how many were given up.
    pub(crate) fn extent(&self) -> Extent
        ensures rows { result.rows ≡ self.now.next }
        ensures retired { result.retired ≡ length self.now.retired }
        ensures stored { IsStored self.now }
    {
        Extent {
            rows: self.next,
            retired: self.retired.len(),
        }
    }

    /// Takes away all but the first rows, and all but the first of those that were given up.
    pub(crate) fn cut_back(&mut self, extent: Extent)
        requires words { 4 * extent.rows ≤ length self.old.words }
        requires stored { IsStored (cut self.old extent.rows extent.retired) }
        ensures { self.new ≡ cut self.old extent.rows extent.retired }
    {
        self.words.truncate(4 * extent.rows as usize);
        self.retired.truncate(extent.retired);
        self.next = extent.rows;
    }
}

impl Cells for StoredRows {
    ghost words = { λ it place. slice_get it.words place };

    ghost rows = { λ it. listed_rows it };

    fn word(&mut self, at: u64) -> u64 {
        self.words[at as usize]
    }
}

impl NewRows for StoredRows {
    fn fresh(&mut self) -> u64 {
        let row = self.next;
        self.next += 1;
        row
    }

    fn write(&mut self, row: u64, words: [u64; 4]) {
        write_at(&mut self.words, row, words);
    }

    fn retire(&mut self, row: u64) {
        self.retired.push_reserved(row);
    }
}

// Writes the four words of a row.
fn write_at(words: &mut [u64], row: u64, four: [u64; 4])
    requires { 4 * row + 4 ≤ length words.old }
    ensures set { (place : ℕ) → place < 4
        → slice_get words.new (4 * row + place) ≡ slice_get four place }
    ensures others { (at : ℕ) → at / 4 ≢ row → slice_get words.new at ≡ slice_get words.old at }
{
    let start = 4 * row as usize;
    words[start..start + 4].copy_from_slice(&four);
}
