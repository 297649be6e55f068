// What an operation will do: where it is done, and why it may be refused for that. Nothing changes here.
ghost use Rattle.std.specs.Prelude.{◌≡◌, IfOk};
ghost use Rattle.fan_access.specs.Operations.{IsSpots};
ghost use Rattle.fan_bits.specs.Places.{IsPlace};
ghost use Rattle.fan_event.specs.Names.{IsName};
ghost use Rattle.fan_machine.specs.Deeds.{created, deed_of, is_busy, last_name, misplaced, moved_into, moves, moves_to, names_up, removes, renames, second_names, unremovable, used};
ghost use Rattle.fan_machine.specs.World.{WorldState};
ghost use Rattle.fan_world.specs.Plans.{HasSpots, IsPlanned, change_by};

use super::deeds::TreeChange;
use super::files::Files;
use super::refused::Refused;
use super::spots::{entry_spot, second_path, spot_by, spots_of};
use fan_access::{Op, Spot};
use fan_bits::{Errno, Place};
use fan_io::Items;
use fan_mounts::split_last;
use std::alloc::Global;

/// What an operation does, and at which spots.
#[derive(Drop)]
pub(crate) struct Plan {
    /// A spot for each thing that it tells of.
    pub(crate) spots: Vec<Spot>,
    /// What it does there.
    pub(crate) change: TreeChange,
}

impl Files {
    /// What an operation does, or why it is refused. Nothing changes.
    #[tactic(auto, unfolding(fan_machine::specs::Deeds::deed_of))]
    pub(crate) fn plan(
        &self,
        alloc: Global,
        op: Op,
        path: &[u8],
        second: &Option<Items<u8>>,
    ) -> Result<Plan, Refused>
        requires name { IsName (last_name (names_up path.now)) }
        requires second { IsName (last_name (second_names second.now)) }
        ensures planned { (world : WorldState) → self.now.tree ≡ world.tree
            → self.now.mounts ≡ world.mounts
            → IsPlanned world.tree result (deed_of world op path.now second.now) }
        ensures spots { IfOk result (λ plan. IsSpots op plan.spots.items) }
    {
        match op {
            Op::Creates => self.plan_creation(alloc, path, false),
            Op::MakesDir => self.plan_creation(alloc, path, true),
            Op::Unlinks | Op::RemovesDir => self.plan_removal(alloc, op, path),
            Op::Renames => self.plan_renaming(alloc, path, second_path(second)),
            Op::Opens
            | Op::Execs
            | Op::Reads
            | Op::Writes
            | Op::ClosesWrite
            | Op::ClosesRead
            | Op::Attribs => self.plan_use(alloc, op, path),
        }
    }

    // What leaves the tree as it is: the walk; EACCES, EISDIR.
    #[tactic(auto, unfolding(fan_mounts::specs::Reaches::place_of))]
    fn plan_use(&self, alloc: Global, op: Op, path: &[u8]) -> Result<Plan, Refused>
        requires name { IsName (last_name (names_up path.now)) }
        ensures planned { (world : WorldState) → self.now.tree ≡ world.tree
            → self.now.mounts ≡ world.mounts
            → IsPlanned world.tree result (used world op (names_up path.now)) }
        ensures spots { IfOk result (λ plan. HasSpots 1 plan.spots.items) }
    {
        let place = self.place(path)?;
        if let Some(errno) = misplaced(op, &place) {
            return Err(Refused::No(errno));
        }
        let spot = spot_by(alloc, path, place)?;
        Ok(Plan {
            spots: spots_of(alloc, [spot])?,
            change: change_by(op),
        })
    }

    // What makes an entry: EEXIST at `/`, the walk of the directory.
    #[tactic(auto, unfolding(fan_mounts::specs::Reaches::place_of))]
    fn plan_creation(&self, alloc: Global, path: &[u8], is_dir: bool) -> Result<Plan, Refused>
        requires name { IsName (last_name (names_up path.now)) }
        ensures planned { (world : WorldState) → self.now.tree ≡ world.tree
            → self.now.mounts ≡ world.mounts
            → IsPlanned world.tree result (created world is_dir (names_up path.now)) }
        ensures spots { IfOk result (λ plan. HasSpots 1 plan.spots.items) }
    {
        let Some((before, name)) = split_last(path) else {
            return Err(Refused::No(Errno::Eexist));
        };
        let dir = self.place(before)?;
        let entry = entry_spot(alloc, dir, name)?;
        Ok(Plan {
            spots: spots_of(alloc, [entry])?,
            change: TreeChange::Makes { is_dir },
        })
    }

    // What removes one: the walk, EISDIR or ENOTDIR, EBUSY.
    #[tactic(auto, unfolding(fan_mounts::specs::Reaches::place_of))]
    fn plan_removal(&self, alloc: Global, op: Op, path: &[u8]) -> Result<Plan, Refused>
        requires name { IsName (last_name (names_up path.now)) }
        ensures planned { (world : WorldState) → self.now.tree ≡ world.tree
            → self.now.mounts ≡ world.mounts
            → IsPlanned world.tree result (removes world op (names_up path.now)) }
        ensures spots { IfOk result (λ plan. HasSpots 2 plan.spots.items) }
    {
        let place = self.place(path)?;
        if let Some(errno) = self.unremovable(op, &place) {
            return Err(Refused::No(errno));
        }
        let Some((before, name)) = split_last(path) else {
            return Err(Refused::No(Errno::Ebusy));
        };
        let dir = self.place(before)?;
        let entry = entry_spot(alloc, dir, name)?;
        let object = spot_by(alloc, path, place)?;
        Ok(Plan {
            spots: spots_of(alloc, [entry, object])?,
            change: TreeChange::Removes,
        })
    }

    // What renames one: the walk, EBUSY.
    #[tactic(auto, unfolding(fan_mounts::specs::Reaches::place_of))]
    fn plan_renaming(&self, alloc: Global, path: &[u8], second: &[u8]) -> Result<Plan, Refused>
        requires name { IsName (last_name (names_up path.now)) }
        requires second { IsName (last_name (names_up second.now)) }
        ensures planned { (world : WorldState) → self.now.tree ≡ world.tree
            → self.now.mounts ≡ world.mounts
            → IsPlanned world.tree result
            (renames world (names_up path.now) (names_up second.now)) }
        ensures spots { IfOk result (λ plan. HasSpots 3 plan.spots.items) }
    {
        let place = self.place(path)?;
        if self.is_busy(&place) {
            return Err(Refused::No(Errno::Ebusy));
        }
        self.plan_move(alloc, place, path, second)
    }

    // What moves it to a second path: EEXIST if that is `/`, and the walks of both directories.
    #[tactic(auto, unfolding(fan_mounts::specs::Reaches::place_of))]
    fn plan_move(
        &self,
        alloc: Global,
        place: Place,
        path: &[u8],
        second: &[u8],
    ) -> Result<Plan, Refused>
        requires place { IsPlace place }
        requires name { IsName (last_name (names_up path.now)) }
        requires second { IsName (last_name (names_up second.now)) }
        ensures planned { (world : WorldState) → self.now.tree ≡ world.tree
            → self.now.mounts ≡ world.mounts
            → IsPlanned world.tree result
            (moves_to world place (names_up path.now) (names_up second.now)) }
        ensures spots { IfOk result (λ plan. HasSpots 3 plan.spots.items) }
    {
        let Some((above, new_name)) = split_last(second) else {
            return Err(Refused::No(Errno::Eexist));
        };
        let Some((before, name)) = split_last(path) else {
            return Err(Refused::No(Errno::Ebusy));
        };
        let to = self.place(above)?;
        let dir = self.place(before)?;
        plan_rename(alloc, place, &dir, name, &to, new_name)
    }

    // Why what is at a place can't be removed by an operation, if it can't.
    fn unremovable(&self, op: Op, place: &Place) -> Option<Errno>
        ensures { (world : WorldState) → self.now.mounts ≡ world.mounts
            → result ≡ unremovable world op place.now }
    {
        match op {
            Op::Unlinks => { if place.dir { Some(Errno::Eisdir) } else { None } }
            _ => {
                if !place.dir {
                    Some(Errno::Enotdir)
                } else if self.is_busy(place) {
                    Some(Errno::Ebusy)
                } else {
                    None
                }
            }
        }
    }

    // Whether what is at a place can't be removed or renamed: it is a filesystem's root, or some mount stands
    // on it.
    fn is_busy(&self, place: &Place) -> bool
        ensures { (world : WorldState) → self.now.mounts ≡ world.mounts
            → result ≡ is_busy world place.now }
    {
        place.parent.is_none() || self.stands_on(place.inode)
    }
}

// What moves an entry of a directory to another under a new name: ENOTDIR, EXDEV.
fn plan_rename(
    alloc: Global,
    place: Place,
    dir: &Place,
    name: &[u8],
    to: &Place,
    new_name: &[u8],
) -> Result<Plan, Refused>
    requires place { IsPlace place }
    requires dir { IsPlace dir.now }
    requires name { IsName name.now }
    requires to { IsPlace to.now }
    requires new_name { IsName new_name.now }
    ensures planned { (world : WorldState) → IsPlanned world.tree result
        (moves world place dir.now name.now to.now new_name.now) }
    ensures spots { IfOk result (λ plan. HasSpots 3 plan.spots.items) }
{
    if !to.dir {
        return Err(Refused::No(Errno::Enotdir));
    }
    if to.mount != place.mount {
        return Err(Refused::No(Errno::Exdev));
    }
    let old = entry_spot(alloc, *dir, name)?;
    let new = entry_spot(alloc, *to, new_name)?;
    let object = entry_spot(alloc, moved_into(place, to), new_name)?;
    Ok(Plan {
        spots: spots_of(alloc, [old, new, object])?,
        change: TreeChange::Renames,
    })
}

// What an operation that leaves the tree does.
fn change_by(op: Op) -> TreeChange
    ensures { result ≡ change_by op }
{
    match op {
        Op::Writes => TreeChange::Writes,
        _ => TreeChange::Uses,
    }
}

// Why an operation can't be done at a place, if it can't: a directory is not executed, and not written
// to.
fn misplaced(op: Op, place: &Place) -> Option<Errno>
    ensures { result ≡ misplaced op place.now }
{
    let errno = match op {
        Op::Execs => Errno::Eacces,
        Op::Writes | Op::ClosesWrite => Errno::Eisdir,
        _ => return None,
    };
    if place.dir { Some(errno) } else { None }
}

// A place, as it is reached from another directory.
fn moved_into(place: Place, dir: &Place) -> Place
    requires place { IsPlace place }
    requires dir { IsPlace dir.now }
    ensures value { result ≡ moved_into place dir.now }
    ensures within { IsPlace result }
{
    Place {
        parent: Some(dir.inode),
        ..place
    }
}
