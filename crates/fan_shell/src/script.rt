// A script, answered line by line.
ghost use Rattle.std.specs.Prelude.{◌≡◌, ◌≢◌, ◌+◌, ◌*◌, ◌<◌, ◌≤◌, ◌^◌, ◌++◌, ◌∷◌, ◌==◌, [], true, length, position, Some, None, IfOk, IfSome, OnOk, OnErr};
ghost use Rattle.std.specs.Io.KnownBytes.{Appends};
ghost use Rattle.fan_blocks.specs.Gathers.{Gathers, GathersFront};
ghost use Rattle.fan_io.specs.Bytes.{AppendsFront};
ghost use Rattle.fan_io.specs.Faults.{HasCause, Rose};
ghost use Rattle.fan_script.specs.Reading.{line_at};
ghost use Rattle.fan_machine.specs.World.{WorldState, initial_world};
ghost use Rattle.fan_shell.specs.Answers.{IsAnswered, IsTurn};
ghost use Rattle.fan_shell.specs.Playing.{turn, play};
ghost use Rattle.fan_shell.specs.Status.{IsPlayedOrCut, IsTold, IsToldOrCut};
ghost use Rattle.fan_shell.specs.Script.{answered, bad_line_text, lines_of};
ghost use Rattle.fan_world.specs.Machine.{IsMachine};

use crate::command::Command;
use crate::run::{MAX_ANSWERS, push_run};
use crate::status::Status;
use fan_blocks::Blocks;
use fan_io::{Failed, NoMemory, Sink};
use fan_print::{print_decimal, print_reply, print_text};
use fan_script::{Line, LineRefused, read_line};
use fan_world::World;
use std::alloc::Global;

// The line that the bytes are, if they are one.
#[tactic(auto, using(fan_script::proofs::LineLemmas::no_line_from_bad))]
fn read_if_line(alloc: Global, bytes: &[u8]) -> Result<Option<Line>, NoMemory>
    ensures line { IfOk result (λ line. line ≡ line_at bytes.now) }
    ensures long { IfOk result (λ line. IfSome line (λ _. 4 ≤ length bytes.now)) }
{
    match read_line(alloc, bytes) {
        Ok(line) => Ok(Some(line)),
        Err(LineRefused::BadLine) => Ok(None),
        Err(LineRefused::NoMemory) => Err(NoMemory),
    }
}

// Does what a line asks for, and puts the text that answers it at the end.
#[tactic(auto, using(std::proofs::Common::append_assoc), unfolding(crate::specs::Script::answered))]
fn push_answered(world: &mut World, line: &Line, out: &mut Vec<u8>) -> Result<(), NoMemory>
    requires { world.old.steps + MAX_ANSWERS ≤ 2 ^ 30 }
    ensures ok { OnOk result ((state : WorldState) → IsMachine world.old state
        → (let answer = answered state line.now in
        IsAnswered world.new out.old.items out.new.items answer.text answer.world)) }
    ensures steps { world.new.steps ≤ world.old.steps + MAX_ANSWERS }
{
    match line {
        Line::One(step) => {
            let reply = world.step(step)?;
            print_reply(out, &reply)?;
        }
        Line::Run(access) => push_run(world, *access, out)?,
    }
    print_text(out, "\n")
}

// Puts the text that names a bad line at the end.
#[tactic(auto, using(std::proofs::Common::append_assoc), unfolding(crate::specs::Script::bad_line_text))]
fn push_bad_line(out: &mut Vec<u8>, number: u32) -> Result<(), NoMemory>
    ensures { OnOk result (out.new.items ≡ out.old.items ++ bad_line_text number) }
{
    print_text(out, "bad line ")?;
    print_decimal(out, number.into())?;
    print_text(out, "\n")
}

// Answers one line: puts its text at the end, and says whether the line was good.
#[tactic(auto, unfolding(crate::specs::Playing::turn))]
fn answer_line(
    alloc: Global,
    world: &mut World,
    number: u32,
    bytes: &[u8],
    out: &mut Vec<u8>,
) -> Result<bool, NoMemory>
    requires { world.old.steps + MAX_ANSWERS ≤ 2 ^ 30 }
    ensures ok { IfOk result (λ good. (state : WorldState) → IsMachine world.old state
        → IsTurn world.new out.old.items out.new.items good (turn state number bytes.now)) }
    ensures steps { world.new.steps ≤ world.old.steps + MAX_ANSWERS }
    ensures long { IfOk result (λ good. good ≡ true → 4 ≤ length bytes.now) }
{
    match read_if_line(alloc, bytes)? {
        None => {
            push_bad_line(out, number)?;
            Ok(false)
        }
        Some(line) => {
            push_answered(world, &line, out)?;
            Ok(true)
        }
    }
}

const LF: u8 = b'\n';

// Where the first LF is.
fn first_lf(script: &[u8]) -> Option<usize>
    ensures found { result ≡ position (λ byte. byte == 10) script.now }
    ensures within { IfSome result (λ at. at < length script.now) }
{
    script.iter().position(|byte| *byte == LF)
}

// The first line of a script that is not empty, and what follows it.
#[tactic(auto, using(crate::proofs::SplitLemmas::lines_at, crate::proofs::SplitLemmas::lines_none, std::proofs::lemmas::List::take_rest))]
fn split_line(script: &[u8]) -> (&[u8], &[u8])
    requires { 0 < length script.now }
    ensures lines { lines_of script.now ≡ result.0.now ∷ lines_of result.1.now }
    ensures length { length result.0.now + length result.1.now ≤ length script.now }
    ensures shorter { length result.1.now < length script.now }
{
    match first_lf(script) {
        Some(at) => (&script[..at], &script[at + 1..]),
        None => (script, &[]),
    }
}

/// Writes the transcript of a script, up to its end, its first bad line or a failure. The texts that
/// answer the lines are put in blocks that grow; the first block is of the first line alone.
pub(crate) fn write_transcript<K: Sink>(alloc: Global, script: &[u8], sink: &mut K) -> Status
    requires { length script.now ≤ 4194304 }
    ensures told { IsTold result
        → Appends (K.held sink.old) (K.held sink.new) (play script.now).text }
    ensures status { IsTold result → (play script.now).status ≡ result }
    ensures front { AppendsFront (K.held sink.old) (K.held sink.new) (play script.now).text }
    ensures fault { result ≡ Status.WriteFault → Rose (K.faults sink.old) (K.faults sink.new) }
    ensures others { IsToldOrCut Command.Script result }
    ensures kept { K.faults sink.old ≤ K.faults sink.new }
{
    let Ok(mut world) = World::new(alloc) else {
        return Status::NoMemory;
    };
    match write_lines(alloc, &mut world, script, sink) {
        Ok(status) => status,
        Err(Failed) => Status::WriteFault,
    }
}

// Answers the lines of a script by a machine that is new, and puts their texts.
fn write_lines<K: Sink>(
    alloc: Global,
    world: &mut World,
    script: &[u8],
    sink: &mut K,
) -> Result<Status, Failed>
    requires most { length script.now ≤ 4194304 }
    requires machine { IsMachine world.old initial_world }
    requires steps { world.old.steps ≡ 0 }
    ensures told { IfOk result (λ status. IsTold status
        → Appends (K.held sink.old) (K.held sink.new) (play script.now).text) }
    ensures status { IfOk result (λ status. IsTold status → (play script.now).status ≡ status) }
    ensures front { AppendsFront (K.held sink.old) (K.held sink.new) (play script.now).text }
    ensures ends { IfOk result IsPlayedOrCut }
    ensures cause { HasCause (K.faults sink.old) (K.faults sink.new) result }
{
    let mut blocks = Blocks::new(alloc);
    let ended = gather_lines(alloc, world, script, &mut blocks, sink);
    blocks.flush(sink)?;
    ended
}

// Answers the lines of a script by a machine that is new, and gathers their texts.
fn gather_lines<K: Sink>(
    alloc: Global,
    world: &mut World,
    script: &[u8],
    blocks: &mut Blocks,
    sink: &mut K,
) -> Result<Status, Failed>
    requires most { length script.now ≤ 4194304 }
    requires machine { IsMachine world.old initial_world }
    requires steps { world.old.steps ≡ 0 }
    requires empty { blocks.old.gathered ≡ [] }
    ensures told { IfOk result (λ status. IsTold status
        → Gathers (K.held sink.old) (K.held sink.new) blocks.new.gathered (play script.now).text) }
    ensures status { IfOk result (λ status. IsTold status → (play script.now).status ≡ status) }
    ensures front { GathersFront
        (K.held sink.old) (K.held sink.new) blocks.new.gathered (play script.now).text }
    ensures ends { IfOk result IsPlayedOrCut }
    ensures cause { HasCause (K.faults sink.old) (K.faults sink.new) result }
{
    let mut number = 1;
    let mut rest = script;
    let mut text = Vec::new(alloc);
    while !rest.is_empty() {
        let (line, more) = split_line(rest);
        text.clear();
        let good = match answer_line(alloc, world, number, line, &mut text) {
            Ok(good) => good,
            Err(NoMemory) => return Ok(Status::NoMemory),
        };
        blocks.push(&text, sink)?;
        if !good {
            return Ok(Status::BadLine);
        }
        rest = more;
        number += 1;
    }
    Ok(Status::Ok)
}
