// `step`: the single steps of an access.
ghost use Rattle.std.specs.Prelude.{◌≡◌, ◌+◌, ◌<◌, ◌^◌, OnErr};
ghost use Rattle.fan_machine.specs.Accesses.{advanced};
ghost use Rattle.fan_machine.specs.World.{WorldState};
ghost use Rattle.fan_world.specs.Bounds.{IsSafe};
ghost use Rattle.fan_world.specs.Done.{IsDone};
ghost use Rattle.fan_world.specs.Machine.{IsMachineOver};
ghost use Rattle.fan_world.specs.Shown.{IsShown};

use super::inner::Inner;
use super::refused::Refused;
use super::sections::Sections;
use fan_bits::Errno;
use fan_script::{Outcomes, Reply};

impl<S: Sections> Inner<S> {
    /// `step`, of which `run` is made: ESRCH. Memory is taken by the listeners alone.
    #[tactic(auto, unfolding(fan_machine::specs::Accesses::advanced))]
    pub(crate) fn advance(&mut self, number: u32) -> Result<Reply, Refused>
        requires few { self.old.steps < 2 ^ 30 }
        requires safe { IsSafe S.inside self.old.steps self.old }
        ensures done { (world : WorldState) → IsMachineOver S.shows S.honest self.old world
            → IsDone S.shows S.honest self.new result (advanced world number) }
        ensures safe { IsSafe S.inside (self.old.steps + 1) self.new }
        ensures steps { self.new.steps ≡ self.old.steps }
        ensures shown { IsShown S.shows number self.old self.new result }
        ensures err { OnErr result (self.new ≡ self.old) }
    {
        let stepped = self
            .accesses
            .step(&mut self.marks, &mut self.groups, number)?;
        match stepped {
            None => Err(Refused::No(Errno::Esrch)),
            Some(outcome) => Ok(Reply::Out(Outcomes::one(outcome))),
        }
    }
}
