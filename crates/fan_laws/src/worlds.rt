// What holds of the machine after any steps.
ghost use Rattle.std.specs.Prelude.{List};
ghost use Rattle.fan_laws.specs.Whole.{IsWhole};
ghost use Rattle.fan_machine.specs.Next.{after};
ghost use Rattle.fan_machine.specs.World.{initial_world};
ghost use Rattle.fan_script.specs.declared.step.Step.{Step};

/// After any steps the marks are in order, one at most for a group and an object, and each stands
/// and is of a group that is open, by the class that the group's flags name. At most 128 groups are
/// open. The entries in a queue are in the order of their numbers, which none has twice. The
/// numbers of the open accesses rise up to the greatest that one had; each access asks at most
/// 256 times, and asks and tells at most 384 times; it has a spot for each event that its operation
/// tells, waits for the group whose turn it is, and was begun through a mount that is still there.
pub fn worlds_are_whole()
    ensures { (steps : List Step) → IsWhole (after initial_world steps) }
{}
