// How entries come into a queue and leave it.
ghost use Rattle.std.specs.Prelude.{◌≡◌, ◌≢◌, ℕ, List, [], ◌++◌};
ghost use Rattle.std.specs.List.Sorted.{IsStrictlyIncreasing};
ghost use Rattle.fan_fates.specs.Fates.{left, made};
ghost use Rattle.fan_fates.specs.Steps.{deeds_by, deeds_in, queue_in};
ghost use Rattle.fan_fates.specs.Turns.{Takes};
ghost use Rattle.fan_laws.specs.Whole.{numbers_in};
ghost use Rattle.fan_machine.specs.Next.{after};
ghost use Rattle.fan_machine.specs.World.{WorldState, initial_world};
ghost use Rattle.fan_script.specs.declared.step.Step.{Step};

/// Each entry that an event makes leaves the queue once at most, in the order in which entries were
/// made, and is queued until then (`leaves_once`). So the numbers of those that leave rise
/// (`reads_rise`). They leave only by a read that gives bytes, or by the close of the group
/// (`by_read_or_close`).
pub fn entries_leave_once()
    ensures leaves_once { (steps : List Step) (group : ℕ) →
        let deeds = deeds_in group initial_world steps in
        numbers_in (left deeds) ++ numbers_in (queue_in (after initial_world steps) group)
        ≡ made deeds }
    ensures reads_rise { (steps : List Step) (group : ℕ) →
        IsStrictlyIncreasing (numbers_in (left (deeds_in group initial_world steps))) }
    ensures by_read_or_close { (world : WorldState) (step : Step) (group : ℕ) →
        left (deeds_by world step group) ≢ [] → Takes world step group }
{}
