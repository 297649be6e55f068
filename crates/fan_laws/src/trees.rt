// What holds of the file tree and its mounts after any steps.
ghost use Rattle.std.specs.Prelude.{List};
ghost use Rattle.fan_machine.specs.Next.{after};
ghost use Rattle.fan_machine.specs.World.{initial_world};
ghost use Rattle.fan_mounts.specs.Mounts.{AreDrawn, AreMounts};
ghost use Rattle.fan_script.specs.declared.step.Step.{Step};
ghost use Rattle.fan_tree.specs.Whole.{IsTree};

/// After any steps no two entries of a directory have one name; the directory of each entry is
/// there and is a directory, and the inode that it leads to is there, of the same filesystem
/// (`tree`). The numbers of the mounts rise, and mount 3 is at `/` (`mounts`); each is below the
/// number that the next object gets (`numbers`).
pub fn trees_are_whole()
    ensures tree { (steps : List Step) → IsTree (after initial_world steps).tree }
    ensures mounts { (steps : List Step) → AreMounts (after initial_world steps).mounts }
    ensures numbers { (steps : List Step) →
        let world = after initial_world steps in
        AreDrawn world.tree world.mounts }
{}
