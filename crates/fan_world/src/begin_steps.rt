// `begin`: how an access begins.
ghost use Rattle.std.specs.Prelude.{◌≡◌, ◌+◌, ◌<◌, ◌^◌, IsTrue, OnErr};
ghost use Rattle.fan_access.specs.Operations.{IsSpots};
ghost use Rattle.fan_event.specs.Names.{IsName};
ghost use Rattle.fan_machine.specs.Accesses.{are_named, begun, op_of};
ghost use Rattle.fan_machine.specs.Deeds.{last_name, names_up, second_names};
ghost use Rattle.fan_machine.specs.World.{WorldState};
ghost use Rattle.fan_world.specs.Begun.{attempt_of};
ghost use Rattle.fan_world.specs.Bounds.{IsSafe};
ghost use Rattle.fan_world.specs.Done.{IsDone};
ghost use Rattle.fan_world.specs.Machine.{IsMachineOver};
ghost use Rattle.fan_world.specs.Plans.{carried};

use super::deeds::carry_out;
use super::inner::Inner;
use super::open_accesses::OpenAccess;
use super::plans::Plan;
use super::refused::Refused;
use super::sections::Sections;
use super::spots::{last_name, second_path};
use fan_access::{Access, Op};
use fan_bits::Errno;
use fan_event::is_name;
use fan_io::Items;
use fan_script::{OpWord, Reply};

/// Who begins an access.
#[derive(Clone, Copy, Debug, PartialEq, Eq)]
pub(crate) struct Actor {
    /// The number of the access.
    pub(crate) number: u32,
    /// The process.
    pub(crate) pid: u32,
    /// The thread of it.
    pub(crate) tid: u32,
}

impl<S: Sections> Inner<S> {
    /// `begin`: EEXIST, EINVAL for a path whose last name is none, as no line has it, and then the
    /// refusals of the operation.
    #[tactic(auto, unfolding(fan_machine::specs::Accesses::begun))]
    pub(crate) fn begin(
        &mut self,
        who: Actor,
        word: OpWord,
        path: &[u8],
        second: &Option<Items<u8>>,
    ) -> Result<Reply, Refused>
        requires few { self.old.steps < 2 ^ 30 }
        requires safe { IsSafe S.inside self.old.steps self.old }
        ensures done { (world : WorldState) → IsMachineOver S.shows S.honest self.old world
            → IsDone S.shows S.honest self.new result
            (begun world who.number who.pid who.tid word path.now second.now) }
        ensures safe { IsSafe S.inside (self.old.steps + 1) self.new }
        ensures steps { self.new.steps ≡ self.old.steps }
        ensures err { OnErr result (self.new ≡ self.old) }
    {
        if who.number <= self.accesses.last() {
            return Err(Refused::No(Errno::Eexist));
        }
        if !are_named(path, second) {
            return Err(Refused::No(Errno::Einval));
        }
        let op = op_of(word);
        let plan = self.files.plan(self.alloc, op, path, second)?;
        self.start(who, op, plan)
    }

    // Begins an access by what is planned. What can fail comes before all that can't be taken back.
    fn start(&mut self, who: Actor, op: Op, plan: Plan) -> Result<Reply, Refused>
        requires few { self.old.steps < 2 ^ 30 }
        requires safe { IsSafe S.inside self.old.steps self.old }
        requires above { self.old.last_access < who.number }
        requires spots { IsSpots op plan.spots.items }
        ensures done { (world : WorldState) → IsMachineOver S.shows S.honest self.old world
            → IsDone S.shows S.honest self.new result (attempt_of world who op
            (carried world.tree plan.change plan.spots.items)) }
        ensures safe { IsSafe S.inside (self.old.steps + 1) self.new }
        ensures steps { self.new.steps ≡ self.old.steps }
        ensures err { OnErr result (self.new ≡ self.old) }
    {
        let Plan { spots, change } = plan;
        self.accesses.reserve()?;
        let section = carry_out(&mut self.files, &mut self.marks, change, &spots)?;
        let access = Access::new(op, spots, who.pid, who.tid);
        self.accesses
            .add_reserved(who.number, OpenAccess { access, section });
        Ok(Reply::Done)
    }
}

// The operation of a word.
fn op_of(word: OpWord) -> Op
    ensures { result ≡ op_of word }
{
    match word {
        OpWord::Opens => Op::Opens,
        OpWord::Execs => Op::Execs,
        OpWord::Reads => Op::Reads,
        OpWord::Writes => Op::Writes,
        OpWord::ClosesWrite => Op::ClosesWrite,
        OpWord::ClosesRead => Op::ClosesRead,
        OpWord::Attribs => Op::Attribs,
        OpWord::Creates => Op::Creates,
        OpWord::MakesDir => Op::MakesDir,
        OpWord::Unlinks => Op::Unlinks,
        OpWord::RemovesDir => Op::RemovesDir,
        OpWord::Renames => Op::Renames,
    }
}

// Whether the last names of both paths are names.
fn are_named(path: &[u8], second: &Option<Items<u8>>) -> bool
    ensures value { result ≡ are_named path.now second.now }
    ensures first { IsTrue result → IsName (last_name (names_up path.now)) }
    ensures second { IsTrue result → IsName (last_name (second_names second.now)) }
{
    is_name(last_name(path)) && is_name(last_name(second_path(second)))
}
