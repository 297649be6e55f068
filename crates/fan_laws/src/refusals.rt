// The law on what a refused step leaves.
ghost use Rattle.std.specs.Prelude.{◌≡◌};
ghost use Rattle.fan_bits.specs.declared.errno.Errno.{Errno};
ghost use Rattle.fan_machine.specs.Next.{next};
ghost use Rattle.fan_machine.specs.World.{WorldState};
ghost use Rattle.fan_script.specs.declared.step.Step.{Step};

use fan_script::Reply;

/// A step that is refused leaves the world as it was.
pub fn refused_steps_change_nothing()
    ensures { (world : WorldState) (step : Step) (errno : Errno) →
        (next world step).reply ≡ Reply.Refused errno → (next world step).world ≡ world }
{}
