// The rooms for verdicts on permission events.
ghost use Rattle.std.specs.Prelude.{◌≡◌, ℕ, All, None, Some};
ghost use Rattle.std.specs.BTreeMap.{is_at};
ghost use Rattle.std.specs.List.Sorted.{IsStrictlySortedBy};
ghost use Rattle.std.specs.Map.{keys_of, remove_entry};
ghost use Rattle.std.specs.Ordering.{nat_cmp};
ghost use Rattle.fan_listener.specs.Responses.{verdict_on, without_verdict};
ghost use Rattle.fan_listener.specs.Stored.{answers_in, rooms_of};

use super::answers::{Pending, Verdict};
use super::asked::AskedEvents;
use fan_map::Map;

// The room for the verdict on each permission event, by the number of its entry. It has none as long as
// none was given, and goes when the verdict is taken.
pub(crate) type Rooms = Map<u64, Option<Verdict>>;

// Takes the verdict on an entry, if it was given, with its room.
pub(crate) fn take_verdict(rooms: &mut Rooms, entry: u64) -> Option<Verdict>
    ensures verdict { result ≡ verdict_on entry (answers_in rooms.old.entries) }
    ensures taken { answers_in rooms.new.entries
        ≡ without_verdict entry (answers_in rooms.old.entries) }
    ensures waiting { (other : ℕ) → rooms_of rooms.old.entries other ≡ Some None
        → rooms_of rooms.new.entries other ≡ Some None }
    ensures unused { (other : ℕ) → rooms_of rooms.old.entries other ≡ None
        → rooms_of rooms.new.entries other ≡ None }
    ensures sorted { IsStrictlySortedBy nat_cmp (keys_of rooms.new.entries) }
{
    let verdict = (*rooms.get(&entry)?)?;
    rooms.remove(&entry);
    Some(verdict)
}

// Takes out all permission events without a verdict, with the rooms for their verdicts.
pub(crate) fn forget_all(asked: &mut AskedEvents, rooms: &mut Rooms)
    requires waiting { All
        (λ pending. verdict_on pending.entry (answers_in rooms.old.entries) ≡ None)
        asked.old.events }
    requires sorted { IsStrictlySortedBy nat_cmp (keys_of rooms.old.entries) }
    ensures verdicts { answers_in rooms.new.entries ≡ answers_in rooms.old.entries }
    ensures unused { (entry : ℕ) → rooms_of rooms.old.entries entry ≡ None
        → rooms_of rooms.new.entries entry ≡ None }
    ensures still_sorted { IsStrictlySortedBy nat_cmp (keys_of rooms.new.entries) }
{
    while let Some(pending) = asked.take_first() {
        forget(rooms, pending);
    }
}

// Takes away the room for the verdict on an event.
fn forget(rooms: &mut Rooms, pending: Pending)
    ensures { rooms.new.entries
        ≡ remove_entry (is_at (nat_cmp pending.entry)) rooms.old.entries }
{
    rooms.remove(&pending.entry);
}
