// Which queued event takes the bits of another.
ghost use Rattle.std.specs.Prelude.{◌≡◌, ◌+◌, true, false, All, IfNone, IfSome, length, position};
ghost use Rattle.fan_event.specs.Keys.{key_hash};
ghost use Rattle.fan_queue.specs.declared.keys.EntryKey.{EntryKey};
ghost use Rattle.fan_queue.specs.Keys.{is_noted};
ghost use Rattle.fan_queue.specs.Queue.{takes};
ghost use Rattle.fan_queue.specs.Queued.{AreQueued};
ghost use Rattle.fan_queue.specs.Table.{AreKnown, number_takes};

use super::cells::{Cell, tag_of};
use super::entry::Entry;
use super::keys::EntryKey;
use super::table::Table;
use fan_event::Notice;
use fan_map::Map;
use std::collections::VecDeque;
use std::ops::Bound;

// The index of the entry that takes the bits of an event with the hash `hash`, where the first entry has
// the number `front`.
pub(crate) fn taker(
    entries: &VecDeque<Entry>,
    table: &Table,
    front: u64,
    event: &Notice<'_>,
    hash: u64,
) -> Option<usize>
    requires hash { hash ≡ key_hash event.now }
    requires queued { AreQueued (front + length entries.now.items) entries.now.items }
    requires known { AreKnown entries.now.items table.now }
    ensures { result ≡ position (takes event.now) entries.now.items }
{
    let tag = tag_of(hash);
    let Some(group) = table.group(tag) else {
        return taker_spilled(entries, &table.spilled, front, event, hash);
    };
    if let Some(index) = taker_in_cells(entries, &group.cells, tag, front, event) {
        return Some(index);
    }
    if group.spilled < front {
        return None;
    }
    taker_spilled(entries, &table.spilled, front, event, hash)
}

// The same, if a cell with the tag of the event has its number.
fn taker_in_cells(
    entries: &VecDeque<Entry>,
    cells: &[Cell],
    tag: u32,
    front: u64,
    event: &Notice<'_>,
) -> Option<usize>
    requires { AreQueued (front + length entries.now.items) entries.now.items }
    ensures some { IfSome result (λ index. position (takes event.now) entries.now.items ≡ Some index) }
    ensures none { IfNone result (All (λ cell. cell.tag ≡ tag
        → number_takes entries.now.items event.now cell.number ≡ false) cells.now) }
{
    for cell in cells {
        if cell.tag == tag {
            let found = taker_at(entries, u64::from(cell.number), front, event);
            if found.is_some() {
                return found;
            }
        }
    }
    None
}

// The same, if a key that was spilled has its number.
fn taker_spilled(
    entries: &VecDeque<Entry>,
    spilled: &Map<EntryKey, ()>,
    front: u64,
    event: &Notice<'_>,
    hash: u64,
) -> Option<usize>
    requires hash { hash ≡ key_hash event.now }
    requires queued { AreQueued (front + length entries.now.items) entries.now.items }
    ensures some { IfSome result (λ index. position (takes event.now) entries.now.items ≡ Some index) }
    ensures none { IfNone result ((key : EntryKey) → is_noted key spilled.now.entries ≡ true
        → key.hash ≡ key_hash event.now
        → number_takes entries.now.items event.now key.number ≡ false) }
{
    let start = EntryKey { hash, number: 0 };
    for (key, _) in spilled.iter_from(Bound::Included(&start)) {
        if key.hash != hash {
            break;
        }
        let found = taker_at(entries, key.number, front, event);
        if found.is_some() {
            return found;
        }
    }
    None
}

// The index of the entry with a number, if it takes the bits of an event.
fn taker_at(entries: &VecDeque<Entry>, number: u64, front: u64, event: &Notice<'_>) -> Option<usize>
    requires { AreQueued (front + length entries.now.items) entries.now.items }
    ensures some { IfSome result (λ index. position (takes event.now) entries.now.items ≡ Some index) }
    ensures none { IfNone result (number_takes entries.now.items event.now number ≡ false) }
{
    let index = number.checked_sub(front)? as usize;
    let entry = entries.get(index)?;
    if entry.takes(event) {
        Some(index)
    } else {
        None
    }
}
