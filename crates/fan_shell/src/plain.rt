// The top call: the commands, and for words that name none the usage line.
ghost use Rattle.std.specs.Prelude.{◌≡◌, ◌≢◌, ◌⊎◌, ◌↔◌, ◌<◌, ◌≤◌, ℕ, length, IfSome};
ghost use Rattle.std.specs.Io.KnownBytes.{Appends, IsAtEnd};
ghost use Rattle.fan_io.specs.Bytes.{AppendsFront, GaveAtMost, GaveMore};
ghost use Rattle.fan_io.specs.Faults.{Rose};
ghost use Rattle.fan_shell.specs.Bulk.{bulk_text, most_rounds};
ghost use Rattle.fan_shell.specs.Command.{Names, NamesBulk, NamesNone, NamesOne};
ghost use Rattle.fan_shell.specs.Outcome.{most_input, usage_line, Tells, TellsFront, Completes};
ghost use Rattle.fan_shell.specs.Status.{IsTold, IsToldOrCut, Ends, EndsBulk, EndsUsage};

use crate::bulk::write_bulk;
use crate::command::{Command, Form, form_of};
use crate::dump::write_records;
use crate::script::write_transcript;
use crate::status::Status;
use fan_io::{Failed, Sink, Source, TakeRefused, put_all, take_all};
use std::alloc::Global;

// The most bytes that an input may have.
const MOST_INPUT: usize = 4_194_304;

const USAGE: &str =
    "usage: fanwatch script | dump | check | bulk SEED COUNT | race SEED WORKERS COUNT\n";

// Writes the line that names the commands.
#[tactic(auto, unfolding(crate::specs::Outcome::usage_line))]
fn write_usage<K: Sink>(sink: &mut K) -> Status
    ensures told { result ≡ Status.Usage → Appends (K.held sink.old) (K.held sink.new) usage_line }
    ensures front { AppendsFront (K.held sink.old) (K.held sink.new) usage_line }
    ensures fault { result ≡ Status.WriteFault → Rose (K.faults sink.old) (K.faults sink.new) }
    ensures others { EndsUsage result }
    ensures kept { K.faults sink.old ≤ K.faults sink.new }
{
    match put_all(sink, USAGE.as_bytes()) {
        Ok(()) => Status::Usage,
        Err(Failed) => Status::WriteFault,
    }
}

// Writes what a command answers to its input.
fn write_answer<K: Sink>(alloc: Global, command: Command, bytes: &[u8], sink: &mut K) -> Status
    requires { length bytes.now ≤ most_input }
    ensures told { IsTold result
        → Tells command (K.held sink.old) (K.held sink.new) bytes.now result }
    ensures front { TellsFront command (K.held sink.old) (K.held sink.new) bytes.now }
    ensures fault { result ≡ Status.WriteFault → Rose (K.faults sink.old) (K.faults sink.new) }
    ensures others { IsToldOrCut command result }
    ensures kept { K.faults sink.old ≤ K.faults sink.new }
{
    match command {
        Command::Script => write_transcript(alloc, bytes, sink),
        Command::Dump => write_records(alloc, bytes, sink),
    }
}

// Takes the input of a command and writes what it answers.
fn run_command<S: Source, K: Sink>(
    alloc: Global,
    command: Command,
    source: &mut S,
    sink: &mut K,
) -> Status
    ensures told { IsTold result → IfSome (S.left source.old)
        (λ bytes. Tells command (K.held sink.old) (K.held sink.new) bytes result) }
    ensures front { IfSome (S.left source.old)
        (λ bytes. TellsFront command (K.held sink.old) (K.held sink.new) bytes) }
    ensures end { IsTold result → IsAtEnd (S.left source.new) }
    ensures within { result ≢ Status.TooLong
        → GaveAtMost (S.left source.old) (S.left source.new) most_input }
    ensures too_long { result ≡ Status.TooLong
        → GaveMore (S.left source.old) (S.left source.new) most_input }
    ensures read_fault { result ≡ Status.ReadFault
        → Rose (S.faults source.old) (S.faults source.new) }
    ensures write_fault { result ≡ Status.WriteFault
        → Rose (K.faults sink.old) (K.faults sink.new) }
    ensures unread { (result ≡ Status.ReadFault) ⊎ (result ≡ Status.TooLong) → sink.new ≡ sink.old }
    ensures ends { Ends command result }
    ensures complete { (Rose (S.faults source.old) (S.faults source.new) → ⊥)
        → (Rose (K.faults sink.old) (K.faults sink.new) → ⊥)
        → IfSome (S.left source.old) (λ bytes. length bytes ≤ most_input
        → Completes command (K.held sink.old) (K.held sink.new) bytes result) }
    ensures kept_source { S.faults source.old ≤ S.faults source.new }
    ensures kept_sink { K.faults sink.old ≤ K.faults sink.new }
{
    match take_all(alloc, source, MOST_INPUT) {
        Ok(input) => write_answer(alloc, command, &input, sink),
        Err(TakeRefused::Failed) => Status::ReadFault,
        Err(TakeRefused::TooLong) => Status::TooLong,
        Err(TakeRefused::NoMemory) => Status::NoMemory,
    }
}

/// Does the command that the words name, over a source and a sink, and answers how it ended. It
/// always returns. `script` and `dump` write what they answer to the source's bytes: the transcript, and the
/// lines of the records. `bulk` reads nothing, and writes the summary of its script. Words that name no
/// command write the usage line.
pub fn run_plain<S: Source, K: Sink>(
    alloc: Global,
    words: &[String],
    source: &mut S,
    sink: &mut K,
) -> Status
    // The bytes written are what the command answers to all bytes that the source had.
    ensures told { (command : Command) → Names words.now command → IsTold result
        → IfSome (S.left source.old)
        (λ bytes. Tells command (K.held sink.old) (K.held sink.new) bytes result) }
    ensures end { (command : Command) → Names words.now command → IsTold result
        → IsAtEnd (S.left source.new) }
    ensures told_words { IsTold result → NamesOne words.now }

    // However a command ends, a front of its answer is written, and nothing else.
    ensures front { (command : Command) → Names words.now command → IfSome (S.left source.old)
        (λ bytes. TellsFront command (K.held sink.old) (K.held sink.new) bytes) }
    ensures ends { (command : Command) → Names words.now command → Ends command result }
    ensures unread { (result ≡ Status.ReadFault) ⊎ (result ≡ Status.TooLong) → sink.new ≡ sink.old }

    // An input within the limit is answered to its end, where neither end fails.
    ensures complete { (command : Command) → Names words.now command
        → (Rose (S.faults source.old) (S.faults source.new) → ⊥)
        → (Rose (K.faults sink.old) (K.faults sink.new) → ⊥)
        → IfSome (S.left source.old) (λ bytes. length bytes ≤ most_input
        → Completes command (K.held sink.old) (K.held sink.new) bytes result) }

    // No count of faults falls.
    ensures kept_source { S.faults source.old ≤ S.faults source.new }
    ensures kept_sink { K.faults sink.old ≤ K.faults sink.new }

    // When a fault comes, and when too many bytes.
    ensures read_fault { result ≡ Status.ReadFault
        → Rose (S.faults source.old) (S.faults source.new) }
    ensures write_fault { result ≡ Status.WriteFault
        → Rose (K.faults sink.old) (K.faults sink.new) }
    ensures too_long { (command : Command) → Names words.now command → result ≡ Status.TooLong
        → GaveMore (S.left source.old) (S.left source.new) most_input }
    ensures not_too_long { result ≢ Status.TooLong
        → GaveAtMost (S.left source.old) (S.left source.new) most_input }

    // `bulk` writes the summary of its script, or nothing where it has too many rounds or memory ran out.
    ensures bulk { (seed count : ℕ) → NamesBulk words.now seed count → result ≡ Status.Ok
        → Appends (K.held sink.old) (K.held sink.new) (bulk_text seed count) }
    ensures bulk_front { (seed count : ℕ) → NamesBulk words.now seed count
        → AppendsFront (K.held sink.old) (K.held sink.new) (bulk_text seed count) }
    ensures bulk_ends { (seed count : ℕ) → NamesBulk words.now seed count → EndsBulk result }
    ensures bulk_too_long { (seed count : ℕ) → NamesBulk words.now seed count
        → (result ≡ Status.TooLong) ↔ (most_rounds < count) }
    ensures bulk_unwritten { (seed count : ℕ) → NamesBulk words.now seed count
        → result ≡ Status.NoMemory → sink.new ≡ sink.old }
    ensures bulk_complete { (seed count : ℕ) → NamesBulk words.now seed count → count ≤ most_rounds
        → (Rose (K.faults sink.old) (K.faults sink.new) → ⊥)
        → (result ≡ Status.Ok) ⊎ (result ≡ Status.NoMemory) }
    ensures bulk_untouched { (seed count : ℕ) → NamesBulk words.now seed count
        → source.new ≡ source.old }

    // Words that name no command.
    ensures usage { result ≡ Status.Usage → Appends (K.held sink.old) (K.held sink.new) usage_line }
    ensures usage_words { result ≡ Status.Usage → NamesNone words.now }
    ensures other_words { NamesNone words.now → EndsUsage result }
    ensures usage_front { NamesNone words.now
        → AppendsFront (K.held sink.old) (K.held sink.new) usage_line }
    ensures untouched { NamesNone words.now → source.new ≡ source.old }
{
    match form_of(words) {
        Form::Input(command) => run_command(alloc, command, source, sink),
        Form::Bulk(seed, count) => write_bulk(alloc, seed, count, sink),
        Form::Other => write_usage(sink),
    }
}
