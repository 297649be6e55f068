// The law of `run`.
ghost use Rattle.std.specs.Prelude.{ℕ, List};
ghost use Rattle.fan_laws.specs.Runs.{IsWholeRun};
ghost use Rattle.fan_machine.specs.Accesses.{access_of};
ghost use Rattle.fan_machine.specs.Next.{after};
ghost use Rattle.fan_machine.specs.Run.{max_answers, ran};
ghost use Rattle.fan_machine.specs.World.{initial_world};
ghost use Rattle.fan_script.specs.declared.step.Step.{Step};

/// `run` of an open access ends by `blocked`, `denied` or `done`, and never by the count of its
/// single steps; of one that is not open it is ESRCH alone.
pub fn every_run_ends()
    ensures { (steps : List Step) (number : ℕ) →
        let world = after initial_world steps in
        IsWholeRun (access_of world number) (ran max_answers world number).answers }
{}
