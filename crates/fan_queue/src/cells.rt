// Groups of cells, where most keys of queued events stand.
//
// A cell holds the tag of a hash and the number of an entry. Numbers rise, and entries leave from
// the front, so a cell is free once its number is below that of the front: nothing is cleared. If a
// group has no free cell, it notes the number, and the key goes to those that are spilled. A search
// looks there only if the number that the group noted last is not below that of the front.
ghost use Rattle.std.specs.Prelude.{◌≡◌, ◌≤◌, ◌<◌, ◌^◌, ℕ, true, length, nat_lt, position, slice_get};
ghost use Rattle.fan_queue.specs.declared.cells.Cell.{Cell};
ghost use Rattle.fan_queue.specs.declared.keys.EntryKey.{EntryKey};
ghost use Rattle.fan_queue.specs.Cells.{cell_of, group_index, has_cell, tag_of};
ghost use Rattle.fan_queue.specs.Keys.{KeySet, is_noted};
ghost use Rattle.fan_queue.specs.Table.{KeepsKeys, known_by};

/// How many cells a group has: with its last number they take 64 bytes.
const CELLS: usize = 7;

// Spreads hashes: the golden ratio's part of 2^64. Its lower half is that of the root of two, and its
// lowest 16 bits are that of the root of three, so hashes that follow on one another in their lowest
// bits, in their upper half or in their highest 16 bits alone, as those of descriptors do, go to
// groups far apart.
const SPREAD: u64 = 11_400_714_818_966_633_319;

/// A place for the key of an entry.
#[derive(Clone, Copy)]
pub(crate) struct Cell {
    /// The tag of its hash.
    pub(crate) tag: u32,
    /// The number of the entry; 0 before the first.
    pub(crate) number: u32,
}

/// The cells of some tags.
#[derive(Clone, Copy)]
pub(crate) struct Group {
    /// The cells.
    pub(crate) cells: [Cell; CELLS],
    /// The number of the last entry that found all of them taken; 0 before the first.
    pub(crate) spilled: u64,
}

/// A group whose cells are free.
pub(crate) const FREE_GROUP: Group = Group {
    cells: [Cell { tag: 0, number: 0 }; CELLS],
    spilled: 0,
};

// The part of a hash that a cell keeps.
#[tactic(auto, unfolding(crate::specs::Cells::tag_of))]
pub(crate) fn tag_of(hash: u64) -> u32
    ensures { result ≡ tag_of hash }
{
    (hash.wrapping_mul(SPREAD) >> 32) as u32
}

// The index of the group of a tag among so many.
#[tactic(auto, unfolding(crate::specs::Cells::group_index))]
pub(crate) fn group_index(tag: u32, count: usize) -> usize
    ensures { result ≡ group_index tag count }
{
    (u64::from(tag).wrapping_mul(count as u64) >> 32) as usize
}

// Puts a cell into a group, if one is free there. Answers whether it did.
pub(crate) fn place(groups: &mut Vec<Group>, index: usize, cell: Cell, front: u64) -> bool
    ensures placed { result ≡ true → (key : EntryKey) (spilled : KeySet) → cell_of key ≡ cell
        → known_by key spilled (slice_get groups.new.items index) ≡ true }
    ensures kept { KeepsKeys front groups.old.items groups.new.items }
{
    match groups.get_mut(index) {
        Some(group) => overwrite(&mut group.cells, cell, front),
        None => false,
    }
}

// Puts a cell in place of a free one, if there is one. Answers whether there is.
fn overwrite(cells: &mut [Cell], cell: Cell, front: u64) -> bool
    ensures placed { result ≡ true → has_cell cell cells.new ≡ true }
    ensures kept { (other : Cell) → front ≤ other.number → has_cell other cells.old ≡ true
        → has_cell other cells.new ≡ true }
{
    let Some(index) = free_cell(cells, front) else {
        return false;
    };
    cells[index] = cell;
    true
}

// The index of the first free cell.
fn free_cell(cells: &[Cell], front: u64) -> Option<usize>
    ensures { result ≡ position (λ cell. nat_lt cell.number front) cells.now }
{
    cells.iter().position(|cell| u64::from(cell.number) < front)
}

// Notes that an entry found no free cell in a group.
pub(crate) fn spill_from(groups: &mut Vec<Group>, index: usize, number: u64)
    ensures spilled { (key : EntryKey) (spilled : KeySet) → key.number ≡ number
        → is_noted key spilled ≡ true
        → known_by key spilled (slice_get groups.new.items index) ≡ true }
    ensures kept { KeepsKeys 0 groups.old.items groups.new.items }
{
    if let Some(group) = groups.get_mut(index) {
        group.spilled = group.spilled.max(number);
    }
}
