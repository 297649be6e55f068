// The command `bulk`: a script that is played, and the summary of its replies.
ghost use Rattle.std.specs.Prelude.{◌≡◌, ◌↔◌, ◌⊎◌, ◌+◌, ◌*◌, ◌<◌, ◌≤◌, ◌^◌, ◌++◌, ◌∷◌, [], List, length, IfOk, OnOk};
ghost use Rattle.std.specs.Io.KnownBytes.{Appends};
ghost use Rattle.fan_bulk.specs.Lines.{bulk_lines, next_round, opening, round_lines};
ghost use Rattle.fan_bulk.specs.Summary.{with_line};
ghost use Rattle.fan_io.specs.Bytes.{AppendsFront};
ghost use Rattle.fan_io.specs.Faults.{Rose};
ghost use Rattle.fan_machine.specs.Next.{after, next};
ghost use Rattle.fan_machine.specs.Run.{ran};
ghost use Rattle.fan_machine.specs.World.{WorldState};
ghost use Rattle.fan_script.specs.declared.line.Line.{Line};
ghost use Rattle.fan_script.specs.declared.step.Step.TheVariants as steps;
ghost use Rattle.fan_shell.specs.Bulk.{IsCounted, IsCountedStep, IsPlayed, bulk_text, counts_of, most_rounds};
ghost use Rattle.fan_shell.specs.Status.{EndsBulk};
ghost use Rattle.fan_shell.specs.Steps.{replies_to, steps_of};
ghost use Rattle.fan_world.specs.Machine.{IsMachine};

use crate::run::{MAX_ANSWERS, is_last};
use crate::status::Status;
use fan_bulk::{Rounds, Summary, opening};
use fan_io::{Failed, NoMemory, Sink, put_all};
use fan_script::{Line, Step};
use fan_world::World;
use std::alloc::Global;

// The most rounds that are played.
const MOST_ROUNDS: u64 = 100_000;

// Does a step and counts its reply. Says whether this ends a run.
fn count_step(world: &mut World, step: &Step, summary: &mut Summary) -> Result<bool, NoMemory>
    requires steps { world.old.steps < 2 ^ 30 }
    requires replies { summary.old.replies ≤ world.old.steps }
    ensures ok { IfOk result (λ ends. (state : WorldState) → IsMachine world.old state
        → IsCountedStep world.new summary.old summary.new ends (next state step.now)) }
    ensures steps { OnOk result (world.new.steps ≡ world.old.steps + 1) }
    ensures replies { OnOk result (summary.new.replies ≤ world.new.steps) }
    ensures lines { OnOk result (summary.new.lines ≡ summary.old.lines) }
{
    let reply = world.step(step)?;
    summary.count(&reply);
    Ok(is_last(&reply))
}

// Does the next single step of an access and counts its answer. Says whether it ends the run.
fn count_answer(world: &mut World, access: u32, summary: &mut Summary) -> Result<bool, NoMemory>
    requires steps { world.old.steps < 2 ^ 30 }
    requires replies { summary.old.replies ≤ world.old.steps }
    ensures ok { IfOk result (λ ends. (state : WorldState) → IsMachine world.old state
        → IsCountedStep world.new summary.old summary.new ends (next state (steps.Advance access))) }
    ensures steps { OnOk result (world.new.steps ≡ world.old.steps + 1) }
    ensures replies { OnOk result (summary.new.replies ≤ world.new.steps) }
    ensures lines { OnOk result (summary.new.lines ≡ summary.old.lines) }
{
    count_step(world, &Step::Advance { access }, summary)
}

// Does so many single steps of an access at most, up to an answer that ends the run, and counts their
// answers.
fn count_run(
    world: &mut World,
    access: u32,
    left: u32,
    summary: &mut Summary,
) -> Result<(), NoMemory>
    requires steps { world.old.steps + left ≤ 2 ^ 30 }
    requires replies { summary.old.replies ≤ world.old.steps }
    ensures ok { OnOk result ((state : WorldState) → IsMachine world.old state
        → (let run = ran left state access in
        IsCounted world.new summary.old summary.new run.answers run.world)) }
    ensures steps { OnOk result (world.new.steps ≤ world.old.steps + left) }
    ensures replies { OnOk result (summary.new.replies ≤ world.new.steps) }
    ensures lines { OnOk result (summary.new.lines ≡ summary.old.lines) }
{
    if left == 0 {
        return Ok(());
    }
    let ends = count_answer(world, access, summary)?;
    if ends {
        return Ok(());
    }
    count_run(world, access, left - 1, summary)
}

// Does the steps of a line, and counts it and their replies.
fn count_line(world: &mut World, line: &Line, summary: &mut Summary) -> Result<(), NoMemory>
    requires steps { world.old.steps + MAX_ANSWERS ≤ 2 ^ 30 }
    requires replies { summary.old.replies ≤ world.old.steps }
    requires lines { summary.old.lines < 2 ^ 32 }
    ensures ok { OnOk result ((state : WorldState) → IsMachine world.old state
        → (let steps = steps_of state line.now in
        IsCounted world.new (with_line summary.old) summary.new (replies_to state steps)
        (after state steps))) }
    ensures steps { OnOk result (world.new.steps ≤ world.old.steps + MAX_ANSWERS) }
    ensures replies { OnOk result (summary.new.replies ≤ world.new.steps) }
    ensures lines { OnOk result (summary.new.lines ≡ summary.old.lines + 1) }
{
    summary.count_line();
    match line {
        Line::One(step) => {
            count_step(world, step, summary)?;
        }
        Line::Run(access) => count_run(world, *access, MAX_ANSWERS, summary)?,
    }
    Ok(())
}

// Does the steps of lines, and counts them and the replies.
fn count_lines(world: &mut World, lines: &[Line], summary: &mut Summary) -> Result<(), NoMemory>
    requires steps { world.old.steps + MAX_ANSWERS * length lines.now ≤ 2 ^ 30 }
    requires replies { summary.old.replies ≤ world.old.steps }
    requires lines { summary.old.lines + length lines.now < 2 ^ 32 }
    ensures ok { OnOk result ((done : List Line) → IsPlayed world.old summary.old done
        → IsPlayed world.new summary.new (done ++ lines.now)) }
    ensures steps { OnOk result
        (world.new.steps ≤ world.old.steps + MAX_ANSWERS * length lines.now) }
    ensures replies { OnOk result (summary.new.replies ≤ world.new.steps) }
    ensures lines { OnOk result (summary.new.lines ≡ summary.old.lines + length lines.now) }
{
    for line in lines {
        count_line(world, line, summary)?;
    }
    Ok(())
}

// Does the steps of the lines before the first round, and counts them and the replies.
fn count_opening(alloc: Global, world: &mut World, summary: &mut Summary) -> Result<(), NoMemory>
    requires steps { world.old.steps ≡ 0 }
    requires replies { summary.old.replies ≡ 0 }
    requires lines { summary.old.lines ≡ 0 }
    ensures ok { OnOk result (IsPlayed world.old summary.old []
        → IsPlayed world.new summary.new opening) }
    ensures steps { OnOk result (world.new.steps ≤ MAX_ANSWERS * 18) }
    ensures replies { OnOk result (summary.new.replies ≤ world.new.steps) }
    ensures lines { OnOk result (summary.new.lines ≡ 18) }
{
    let lines = opening(alloc)?;
    count_lines(world, &lines, summary)
}

// Does the steps of the lines of the next round, and counts them and the replies.
fn count_round(
    alloc: Global,
    world: &mut World,
    rounds: &mut Rounds,
    summary: &mut Summary,
) -> Result<(), NoMemory>
    requires steps { world.old.steps + MAX_ANSWERS * 8 ≤ 2 ^ 30 }
    requires replies { summary.old.replies ≤ world.old.steps }
    requires lines { summary.old.lines + 8 < 2 ^ 32 }
    requires access { rounds.old.access + 1 < 2 ^ 32 }
    ensures ok { OnOk result ((done : List Line) → IsPlayed world.old summary.old done
        → IsPlayed world.new summary.new (done ++ round_lines rounds.old)) }
    ensures next { OnOk result (rounds.new ≡ next_round rounds.old) }
    ensures access { OnOk result (rounds.new.access ≡ rounds.old.access + 1) }
    ensures steps { OnOk result (world.new.steps ≤ world.old.steps + MAX_ANSWERS * 8) }
    ensures replies { OnOk result (summary.new.replies ≤ world.new.steps) }
    ensures lines { OnOk result (summary.new.lines ≤ summary.old.lines + 8) }
{
    let lines = rounds.next_lines(alloc)?;
    count_lines(world, &lines, summary)
}

// The summary of the script with so many rounds.
fn summarize(alloc: Global, seed: u64, count: u64) -> Result<Summary, NoMemory>
    requires { count ≤ most_rounds }
    ensures { IfOk result (λ summary. summary ≡ counts_of (bulk_lines seed count)) }
{
    let mut world = World::new(alloc)?;
    let mut summary = Summary::new();
    count_opening(alloc, &mut world, &mut summary)?;
    let mut rounds = Rounds::new(seed);
    for _ in 0..count {
        count_round(alloc, &mut world, &mut rounds, &mut summary)?;
    }
    Ok(summary)
}

// What `bulk` writes.
#[tactic(auto, unfolding(crate::specs::Bulk::bulk_text))]
fn bulk_text(alloc: Global, seed: u64, count: u64) -> Result<Vec<u8>, NoMemory>
    requires { count ≤ most_rounds }
    ensures { IfOk result (λ text. text.items ≡ bulk_text seed count) }
{
    let mut text = Vec::new(alloc);
    summarize(alloc, seed, count)?.write(&mut text)?;
    Ok(text)
}

/// Plays the script of `bulk` with so many rounds, and writes the summary of its replies, once all are
/// counted.
pub(crate) fn write_bulk<K: Sink>(alloc: Global, seed: u64, count: u64, sink: &mut K) -> Status
    ensures told { result ≡ Status.Ok
        → Appends (K.held sink.old) (K.held sink.new) (bulk_text seed count) }
    ensures front { AppendsFront (K.held sink.old) (K.held sink.new) (bulk_text seed count) }
    ensures too_long { (result ≡ Status.TooLong) ↔ (most_rounds < count) }
    ensures fault { result ≡ Status.WriteFault → Rose (K.faults sink.old) (K.faults sink.new) }
    ensures unwritten { (result ≡ Status.TooLong) ⊎ (result ≡ Status.NoMemory)
        → sink.new ≡ sink.old }
    ensures others { EndsBulk result }
    ensures complete { count ≤ most_rounds → (Rose (K.faults sink.old) (K.faults sink.new) → ⊥)
        → (result ≡ Status.Ok) ⊎ (result ≡ Status.NoMemory) }
    ensures kept { K.faults sink.old ≤ K.faults sink.new }
{
    if count > MOST_ROUNDS {
        return Status::TooLong;
    }
    let text = match bulk_text(alloc, seed, count) {
        Ok(text) => text,
        Err(NoMemory) => return Status::NoMemory,
    };
    match put_all(sink, &text) {
        Ok(()) => Status::Ok,
        Err(Failed) => Status::WriteFault,
    }
}
