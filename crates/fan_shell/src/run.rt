// `run`: the single steps of an access, up to an answer that ends the run.
ghost use Rattle.std.specs.Prelude.{◌≡◌, ◌+◌, ◌<◌, ◌≤◌, ◌^◌, IfOk, OnOk};
ghost use Rattle.fan_machine.specs.Next.{next};
ghost use Rattle.fan_machine.specs.Run.{is_last, max_answers, ran};
ghost use Rattle.fan_machine.specs.World.{WorldState};
ghost use Rattle.fan_script.specs.declared.step.Step.TheVariants as steps;
ghost use Rattle.fan_shell.specs.Answers.{IsAnswered, IsSingleStep};
ghost use Rattle.fan_print.specs.Texts.{answers_text, more_text};
ghost use Rattle.fan_world.specs.Machine.{IsMachine};

use fan_io::NoMemory;
use fan_print::{print_reply, print_text};
use fan_script::{Reply, Step};
use fan_world::World;

// How many single steps a run has at most.
pub(crate) const MAX_ANSWERS: u32 = 641;

// Whether an answer ends a run.
pub(crate) fn is_last(reply: &Reply) -> bool
    ensures { result ≡ is_last reply.now }
{
    match reply {
        Reply::Out(outcomes) => match outcomes.as_slice() {
            [outcome] => outcome.ends_run(),
            _ => true,
        },
        _ => true,
    }
}

// Does the next single step and puts its answer at the end. Says whether it ends the run.
fn push_answer(world: &mut World, access: u32, out: &mut Vec<u8>) -> Result<bool, NoMemory>
    requires { world.old.steps < 2 ^ 30 }
    ensures ok { IfOk result (λ ends. (state : WorldState) → IsMachine world.old state
        → (let outcome = next state (steps.Advance access) in
        IsSingleStep world.new out.old.items out.new.items ends outcome)) }
    ensures steps { world.new.steps ≤ world.old.steps + 1 }
{
    let reply = world.step(&Step::Advance { access })?;
    print_reply(out, &reply)?;
    Ok(is_last(&reply))
}

// Puts the answers of so many further single steps at most at the end, each behind a comma, up to
// one that ends the run.
fn push_more(world: &mut World, access: u32, left: u32, out: &mut Vec<u8>) -> Result<(), NoMemory>
    requires { world.old.steps + left ≤ 2 ^ 30 }
    ensures ok { OnOk result ((state : WorldState) → IsMachine world.old state
        → (let run = ran left state access in
        IsAnswered world.new out.old.items out.new.items (more_text run.answers) run.world)) }
    ensures steps { world.new.steps ≤ world.old.steps + left }
{
    for _ in 0..left {
        print_text(out, ", ")?;
        let ends = push_answer(world, access, out)?;
        if ends {
            return Ok(());
        }
    }
    Ok(())
}

/// Does the single steps of an access until it waits or is finished, and puts their answers at the
/// end.
pub(crate) fn push_run(world: &mut World, access: u32, out: &mut Vec<u8>) -> Result<(), NoMemory>
    requires { world.old.steps + MAX_ANSWERS ≤ 2 ^ 30 }
    ensures ok { OnOk result ((state : WorldState) → IsMachine world.old state
        → (let run = ran max_answers state access in
        IsAnswered world.new out.old.items out.new.items (answers_text run.answers) run.world)) }
    ensures steps { world.new.steps ≤ world.old.steps + MAX_ANSWERS }
{
    let ends = push_answer(world, access, out)?;
    if ends {
        return Ok(());
    }
    push_more(world, access, MAX_ANSWERS - 1, out)
}
