// One access in progress, and its single step.
ghost use Rattle.std.specs.Prelude.{◌≡◌, ◌≤◌, ◌<◌, ◌^◌, ◌+◌, ℕ, List, Some, All, IfOk, OnErr, length, slice_get};
ghost use Rattle.fan_access.specs.Access.{AccessState, access_step, asked, asks, asks_next, looked, new_access, tells, tells_next, told};
ghost use Rattle.fan_access.specs.Kept.{AsksLeft, IsAccess, IsStepped, SeesSame, TellsLeft};
ghost use Rattle.fan_access.specs.Operations.{IsSpots, first_mount};
ghost use Rattle.fan_access.specs.declared.spot.Spot.{Spot};
ghost use Rattle.fan_bits.specs.declared.mark.Mark.{Mark};
ghost use Rattle.fan_bits.specs.Marks.{IsMarkList};
ghost use Rattle.fan_bits.specs.Places.{IsPlace};
ghost use Rattle.fan_event.specs.Names.{IsName};
ghost use Rattle.fan_listener.specs.Groups.{IsCalledOnce};

use crate::listeners::Listeners;
use crate::op::Op;
use crate::outcome::{
    answered_outcome, asked_outcome, phase_after_answer, phase_after_ask, told_outcome,
};
use crate::phase::{Cursor, Phase};
use crate::rounds::{AskedRounds, ToldRounds};
use crate::spot::Spot;
use crate::turn::{NextTurn, next_turn};
use fan_bits::{Connectors, StepOutcome};
use fan_io::{Items, NoMemory};
use std::marker::Model;

/// An operation on files and directories, from its begin to its end. The marks by which it goes are
/// handed in at each step: as they stood at its begin, as far as they matter at its spots.
#[derive(Debug, Drop)]
pub struct Access {
    op: Op,
    spots: Items<Spot>,
    pid: u32,
    tid: u32,
    phase: Phase,
}

impl Model for Access {
    ghost use Rattle.std.specs.Prelude.{All};
    ghost use Rattle.fan_access.specs.Kept.{KeptAccess};
    ghost use Rattle.fan_bits.specs.Places.{IsPlace};

    ghost Value = { KeptAccess };

    ghost view = { λ a. record {
      op = a.op;
      spots = a.spots;
      pid = a.pid;
      tid = a.tid;
      phase = a.phase;
    } };

    ghost invariant = { λ a. All (λ spot. IsPlace spot.place) a.spots };
}

impl Access {
    /// An operation at its spots by a process and a thread of it, at its begin. Takes no memory.
    pub fn new(op: Op, spots: Vec<Spot>, pid: u32, tid: u32) -> Access
        requires { IsSpots op spots.items }
        ensures begins { (marks view : List Mark) → IsMarkList view
            → SeesSame marks (new_access op spots.items pid tid view)
            → IsAccess marks result (new_access op spots.items pid tid view) }
    {
        Access {
            op,
            spots: Items::from_vec(spots),
            pid,
            tid,
            phase: Phase::Asking {
                cursor: Cursor::START,
            },
        }
    }

    /// The mount through which it was begun: that of its first spot.
    pub fn mount(&self) -> u32
        ensures { result ≡ first_mount self.now.spots }
    {
        match self.spots().first() {
            Some(spot) => spot.place.mount,
            None => 0,
        }
    }

    /// Its spots, one for each thing that it tells of.
    pub fn spots(&self) -> &[Spot]
        ensures value { result.now ≡ self.now.spots }
        ensures places { All (λ spot. IsPlace spot.place) self.now.spots }
    {
        self.spots.as_slice()
    }

    /// Does the next single step: asks a group, looks for its answer, or tells one. An outcome that
    /// ends the access, by `StepOutcome::ends_access`, is its last: it is not stepped again. The
    /// step itself allocates nothing; `NoMemory` comes from the listeners, and changes nothing.
    pub fn step<C: Connectors, L: Listeners>(
        &mut self,
        connectors: &mut C,
        listeners: &mut L,
    ) -> Result<StepOutcome, NoMemory>
        requires shown { (marks : List Mark) × C.shows connectors.old marks }
        requires entries { All (λ listener. listener.next_entry ≤ 2 ^ 31) (L.groups listeners.old) }
        ensures ok { IfOk result (λ outcome. (marks : List Mark) (access : AccessState)
            → C.shows connectors.old marks → IsAccess marks self.old access
            → IsStepped marks outcome (L.groups listeners.new) self.new
            (access_step (L.groups listeners.old) access)) }
        ensures calls { IsCalledOnce (L.groups listeners.old) (L.groups listeners.new) }
        ensures same_spots { self.new.spots ≡ self.old.spots }
        ensures connectors { (marks : List Mark) → C.shows connectors.old marks
            → C.shows connectors.new marks }
        ensures err { OnErr result (self.new ≡ self.old) }
        ensures listeners { OnErr result (L.groups listeners.new ≡ L.groups listeners.old) }
    {
        match self.phase {
            Phase::Asking { cursor } => self.ask_next(connectors, listeners, cursor),
            Phase::Waiting {
                cursor,
                group,
                entry,
            } => Ok(self.look(listeners, cursor, group, entry)),
            Phase::Telling { cursor } => self.tell_next(connectors, listeners, cursor),
        }
    }

    // Asks the next group; after the last one tells the first.
    fn ask_next<C: Connectors, L: Listeners>(
        &mut self,
        connectors: &mut C,
        listeners: &mut L,
        cursor: Cursor,
    ) -> Result<StepOutcome, NoMemory>
        requires shown { (marks : List Mark) × C.shows connectors.old marks }
        requires entries { All (λ listener. listener.next_entry ≤ 2 ^ 31) (L.groups listeners.old) }
        ensures ok { IfOk result (λ outcome. (marks : List Mark) (access : AccessState) (at : ℕ)
            → C.shows connectors.old marks → IsAccess marks self.old access
            → AsksLeft access at cursor
            → IsStepped marks outcome (L.groups listeners.new) self.new
            (asks_next (slice_get (asks access) at) at (L.groups listeners.old) access)) }
        ensures calls { IsCalledOnce (L.groups listeners.old) (L.groups listeners.new) }
        ensures same_spots { self.new.spots ≡ self.old.spots }
        ensures connectors { (marks : List Mark) → C.shows connectors.old marks
            → C.shows connectors.new marks }
        ensures err { OnErr result (self.new ≡ self.old) }
        ensures listeners { OnErr result (L.groups listeners.new ≡ L.groups listeners.old) }
    {
        let rounds = AskedRounds {
            op: self.op,
            spots: self.spots.as_slice(),
        };
        match next_turn(connectors, &rounds, cursor) {
            Some(turn) => self.ask(listeners, turn),
            None => self.tell_next(connectors, listeners, Cursor::START),
        }
    }

    // Tells the next group; after the last one the access is done.
    fn tell_next<C: Connectors, L: Listeners>(
        &mut self,
        connectors: &mut C,
        listeners: &mut L,
        cursor: Cursor,
    ) -> Result<StepOutcome, NoMemory>
        requires shown { (marks : List Mark) × C.shows connectors.old marks }
        requires entries { All (λ listener. listener.next_entry ≤ 2 ^ 31) (L.groups listeners.old) }
        ensures ok { IfOk result (λ outcome. (marks : List Mark) (access : AccessState) (at : ℕ)
            → C.shows connectors.old marks → IsAccess marks self.old access
            → TellsLeft access at cursor
            → IsStepped marks outcome (L.groups listeners.new) self.new
            (tells_next (slice_get (tells access) at) at (L.groups listeners.old) access)) }
        ensures calls { IsCalledOnce (L.groups listeners.old) (L.groups listeners.new) }
        ensures same_spots { self.new.spots ≡ self.old.spots }
        ensures connectors { (marks : List Mark) → C.shows connectors.old marks
            → C.shows connectors.new marks }
        ensures err { OnErr result (self.new ≡ self.old) }
        ensures listeners { OnErr result (L.groups listeners.new ≡ L.groups listeners.old) }
    {
        let rounds = ToldRounds {
            op: self.op,
            spots: self.spots.as_slice(),
        };
        match next_turn(connectors, &rounds, cursor) {
            Some(turn) => self.tell(listeners, turn),
            None => Ok(StepOutcome::Done),
        }
    }

    // Asks the group of a turn, and waits for it if its event is queued.
    fn ask<L: Listeners>(
        &mut self,
        listeners: &mut L,
        turn: NextTurn,
    ) -> Result<StepOutcome, NoMemory>
        requires spot { 0 < length self.old.spots }
        requires entries { All (λ listener. listener.next_entry ≤ 2 ^ 31) (L.groups listeners.old) }
        ensures ok { IfOk result (λ outcome. (marks : List Mark) (access : AccessState) (at : ℕ)
            (spot : Spot) → IsAccess marks self.old access → AsksLeft access (at + 1) turn.behind
            → slice_get self.old.spots 0 ≡ Some spot
            → IsStepped marks outcome (L.groups listeners.new) self.new (asked (record {
              happening = turn.happening;
              name = spot.name;
              interest = turn.interest;
            }) at (L.groups listeners.old) access)) }
        ensures calls { IsCalledOnce (L.groups listeners.old) (L.groups listeners.new) }
        ensures same_spots { self.new.spots ≡ self.old.spots }
        ensures err { OnErr result (self.new ≡ self.old) }
        ensures listeners { OnErr result (L.groups listeners.new ≡ L.groups listeners.old) }
    {
        let NextTurn {
            happening,
            interest,
            behind,
        } = turn;
        let group = interest.group;
        let name = self.name(0);
        let put = listeners.ask(group, &happening, name, interest.bits, self.pid, self.tid)?;
        self.phase = phase_after_ask(behind, group, put);
        Ok(asked_outcome(group, put))
    }

    // Tells the group of a turn.
    fn tell<L: Listeners>(
        &mut self,
        listeners: &mut L,
        turn: NextTurn,
    ) -> Result<StepOutcome, NoMemory>
        requires spot { turn.behind.round < length self.old.spots }
        requires entries { All (λ listener. listener.next_entry ≤ 2 ^ 31) (L.groups listeners.old) }
        ensures ok { IfOk result (λ outcome. (marks : List Mark) (access : AccessState) (at : ℕ)
            (spot : Spot) → IsAccess marks self.old access → TellsLeft access (at + 1) turn.behind
            → slice_get self.old.spots turn.behind.round ≡ Some spot
            → IsStepped marks outcome (L.groups listeners.new) self.new (told (record {
              happening = turn.happening;
              name = spot.name;
              interest = turn.interest;
            }) at (L.groups listeners.old) access)) }
        ensures calls { IsCalledOnce (L.groups listeners.old) (L.groups listeners.new) }
        ensures same_spots { self.new.spots ≡ self.old.spots }
        ensures err { OnErr result (self.new ≡ self.old) }
        ensures listeners { OnErr result (L.groups listeners.new ≡ L.groups listeners.old) }
    {
        let NextTurn {
            happening,
            interest,
            behind,
        } = turn;
        let group = interest.group;
        let name = self.name(behind.round);
        let put = listeners.tell(group, &happening, name, interest.bits, self.pid, self.tid)?;
        self.phase = Phase::Telling { cursor: behind };
        Ok(told_outcome(group, put))
    }

    // Looks for the answer that it waits for; with one, the next group is asked.
    fn look<L: Listeners>(
        &mut self,
        listeners: &mut L,
        behind: Cursor,
        group: u32,
        entry: u64,
    ) -> StepOutcome
        ensures outcome { (marks : List Mark) (access : AccessState) (at : ℕ)
            → IsAccess marks self.old access → AsksLeft access (at + 1) behind
            → IsStepped marks result (L.groups listeners.new) self.new
            (looked at group entry (L.groups listeners.old) access) }
        ensures calls { IsCalledOnce (L.groups listeners.old) (L.groups listeners.new) }
        ensures same_spots { self.new.spots ≡ self.old.spots }
    {
        let answer = listeners.answer(group, entry);
        self.phase = phase_after_answer(behind, group, entry, answer);
        answered_outcome(group, answer)
    }

    // The name at the spot with a number.
    fn name(&self, number: usize) -> &[u8]
        requires { number < length self.now.spots }
        ensures value { (spot : Spot) → slice_get self.now.spots number ≡ Some spot
            → result.now ≡ spot.name }
        ensures whole { IsName result.now }
    {
        self.spots.as_slice()[number].name.bytes()
    }
}
