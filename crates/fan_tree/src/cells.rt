// Groups of cells, where most names are found at once.
//
// A cell holds the tag of a name and the number that the name leads to. A cell is free if it was never written,
// or if its number is no more one of a name with its tag: nothing is cleared. A name that finds no free cell in
// its group goes to those that are spilled, and the group notes that one did.
ghost use Rattle.std.specs.Prelude.{◌≡◌, ◌≢◌, ℕ, ◌<◌, IfSome, length, slice_get, slice_index_or, true};
ghost use Rattle.fan_tree.specs.declared.cells.Cell.{Cell};
ghost use Rattle.fan_tree.specs.Cells.{KeepsCells, KeepsKnown, group_index, has_cell, is_free, knows};
ghost use Rattle.fan_tree.specs.Entries.{Entries, NameIn, tag_of};
ghost use Rattle.fan_tree.specs.Spilled.{Dirs, is_number, number_in};

use super::entries::Entries;

/// How many cells a group has.
const CELLS: usize = 7;

/// A place for a name.
#[derive(Clone, Copy)]
pub(crate) struct Cell {
    /// The tag of the name.
    pub(crate) tag: u32,
    /// The number that the name leads to; 0 before the first.
    pub(crate) number: u32,
}

/// The cells of some tags.
#[derive(Clone, Copy)]
pub(crate) struct Group {
    /// The cells.
    pub(crate) cells: [Cell; CELLS],
    /// Whether a name found all of them taken.
    pub(crate) spilled: bool,
}

/// A group whose cells are free.
pub(crate) const FREE_GROUP: Group = Group {
    cells: [Cell { tag: 0, number: 0 }; CELLS],
    spilled: false,
};

// The index of the group of a tag among so many.
#[tactic(auto, unfolding(crate::specs::Cells::group_index))]
pub(crate) fn group_index(tag: u32, count: usize) -> usize
    ensures { result ≡ group_index tag count }
{
    (u64::from(tag).wrapping_mul(count as u64) >> 32) as usize
}

// Puts a cell into a group, if one is free there. Answers whether it did.
pub(crate) fn place(groups: &mut Vec<Group>, index: usize, cell: Cell, entries: &Entries) -> bool
    ensures placed { result ≡ true → (entry : NameIn) (spilled : Dirs) → tag_of entry ≡ cell.tag
        → knows entry cell.number spilled (slice_get groups.new.items index) ≡ true }
    ensures kept { KeepsKnown entries.now groups.old.items groups.new.items }
{
    match groups.get_mut(index) {
        Some(group) => overwrite(&mut group.cells, cell, entries),
        None => false,
    }
}

// Puts a cell in place of a free one, if there is one. Answers whether there is.
fn overwrite(cells: &mut [Cell], cell: Cell, entries: &Entries) -> bool
    ensures placed { result ≡ true → has_cell cell cells.new ≡ true }
    ensures kept { KeepsCells entries.now cells.old cells.new }
{
    let Some(index) = free_cell(cells, entries) else {
        return false;
    };
    cells[index] = cell;
    true
}

// The index of a free cell: of one that was never written, if there is one.
fn free_cell(cells: &[Cell], entries: &Entries) -> Option<usize>
    ensures within { IfSome result (λ index. index < length cells.now) }
    ensures free { IfSome result (λ index. (other : Cell) →
        is_free entries.now (slice_index_or cells.now index other) ≡ true) }
{
    let unwritten = cells.iter().position(|cell| cell.number == 0);
    if unwritten.is_some() {
        return unwritten;
    }
    cells
        .iter()
        .position(|cell| !entries.is_tagged(cell.tag, cell.number))
}

// Notes that a name found no free cell in a group.
pub(crate) fn spill_from(groups: &mut Vec<Group>, index: usize)
    ensures spilled { (entry : NameIn) (number : ℕ) (spilled : Dirs) →
        is_number number (number_in spilled entry.dir entry.name) ≡ true
        → knows entry number spilled (slice_get groups.new.items index) ≡ true }
    ensures kept { (entries : Entries) → KeepsKnown entries groups.old.items groups.new.items }
{
    if let Some(group) = groups.get_mut(index) {
        group.spilled = true;
    }
}
