// The machine as its callers see it, over any table of marks with sections, and one step of it.
ghost use Rattle.std.specs.Prelude.{◌≡◌, ◌+◌, ◌<◌, ◌^◌, ℕ, [], IfOk, OnErr, OnOk};
ghost use Rattle.fan_machine.specs.Next.{next};
ghost use Rattle.fan_machine.specs.World.{WorldState, initial_world};
ghost use Rattle.fan_world.specs.Machine.{IsMachineOver, IsStepOver, sections_of};
ghost use Rattle.fan_world.specs.Shown.{HasShown};

use super::inner::Inner;
use super::refused::Refused;
use super::sections::Sections;
use fan_io::NoMemory;
use fan_script::{Reply, Step};
use std::alloc::Global;
use std::marker::Model;

/// The machine, which does one step of a script at a time. An open access goes by a section of the
/// table, and by nothing else.
#[derive(Drop)]
pub struct Machine<S: Sections> {
    inner: Inner<S>,
}

impl<S: Sections> Model for Machine<S> {
    ghost use Rattle.fan_world.specs.Bounds.{IsSafe};
    ghost use Rattle.fan_world.specs.Machine.{PartsOver};

    ghost Value = { PartsOver S };

    ghost view = { λ m. m.inner };

    ghost invariant = { λ m. IsSafe S.inside m.inner.steps m.inner };
}

impl<S: Sections> Machine<S> {
    /// The machine at the start, over a table without marks and sections: a filesystem with its root,
    /// mounted at `/`, and no group.
    ///
    /// # Errors
    /// `NoMemory` if there was none.
    pub fn over(alloc: Global, sections: S) -> Result<Machine<S>, NoMemory>
        requires inside { S.inside sections [] }
        requires present { S.honest sections → S.present sections [] }
        ensures machine { IfOk result (λ machine. S.honest sections
            → IsMachineOver S.shows S.honest machine initial_world) }
        ensures sections { IfOk result (λ machine. machine.sections ≡ sections) }
        ensures steps { IfOk result (λ machine. machine.steps ≡ 0) }
    {
        Ok(Machine {
            inner: Inner::over(alloc, sections)?,
        })
    }

    /// The table by whose sections accesses go: those of the open accesses are the ones that are in.
    pub fn table(&self) -> &S
        ensures value { result.now ≡ self.now.sections }
        ensures inside { S.inside self.now.sections (sections_of self.now.accesses) }
        ensures present { S.honest self.now.sections → S.present self.now.sections self.now.marks }
    {
        self.inner.table()
    }

    /// How many steps were made, want of memory left out.
    pub fn steps(&self) -> u32
        ensures { result ≡ self.now.steps }
    {
        self.inner.steps()
    }

    /// Does one step and gives its reply. A single step of an access goes by what its section shows,
    /// whatever that is; where the table is honest, these are the marks as they stood at its begin.
    ///
    /// # Errors
    /// `NoMemory` if there was none. Nothing changed then.
    #[tactic(auto, unfolding(fan_machine::specs::Next::next))]
    pub fn step(&mut self, step: &Step) -> Result<Reply, NoMemory>
        requires { self.old.steps < 2 ^ 30 }
        ensures ok { IfOk result (λ reply. (world : WorldState)
            → IsMachineOver S.shows S.honest self.old world
            → IsStepOver S.shows S.honest self.new reply (next world step.now)) }
        ensures shown { (number : ℕ) → step.now ≡ Step.Advance number
            → IfOk result (λ reply. HasShown S.shows number self.old self.new reply) }
        ensures steps { OnOk result (self.new.steps ≡ self.old.steps + 1) }
        ensures err { OnErr result (self.new ≡ self.old) }
    {
        let reply = match self.inner.attempt(step) {
            Ok(reply) => reply,
            Err(Refused::No(errno)) => Reply::Refused(errno),
            Err(Refused::NoMemory) => return Err(NoMemory),
        };
        self.inner.count_step();
        Ok(reply)
    }
}
