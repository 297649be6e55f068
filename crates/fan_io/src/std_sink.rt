// A writer of the standard library as a sink. It tells the bytes that the writer tells.
ghost use Rattle.std.specs.Prelude.{◌≡◌, ℕ, ◌<◌, ◌≤◌, ⊤, List, Option, Result, length, IfOk};
ghost use Rattle.std.specs.Io.KnownBytes.{WriteAppends};
ghost use Rattle.std.specs.declared.io.Error.{Error};
ghost use Rattle.fan_io.specs.Calls.{AnswersWrite};
ghost use Rattle.fan_io.specs.Faults.{CountsFault, HasCause};

use super::faults::{Failed, next};
use super::sink::Sink;
use std::io;
use std::io::Write;

/// A writer, and what a write of it may answer. Every writer of the standard library is one.
pub trait Writer {
    /// The bytes that it holds, where it tells them.
    ghost held: { Self → Option (List ℕ) };

    /// Whether a write of the first writer may give this answer and leave the second.
    ghost may_answer: { Self → Result ℕ Error → Self → Type 0 };

    /// Writes once: appends a front of the bytes, and answers how many it took.
    fn write_once(&mut self, bytes: &[u8]) -> io::Result<usize>
        ensures within { IfOk result (λ count. count ≤ length bytes.now) }
        ensures bytes { WriteAppends (held self.old) (held self.new) result bytes.now }
        ensures answer { may_answer self.old result self.new };
}

// The standard library doesn't say when a write fails, so no answer is ruled out here.
impl<W: Write> Writer for W {
    ghost held = { λ w. W.contents w };

    ghost may_answer = { λ _ _ _. ⊤ };

    fn write_once(&mut self, bytes: &[u8]) -> io::Result<usize> {
        self.write(bytes)
    }
}

/// A writer as a sink, with a count of its failures. One that takes no byte of a piece counts as
/// failed.
#[derive(Drop)]
pub struct StdSink<W> {
    writer: W,
    faults: u64,
}

impl<W: Writer> StdSink<W> {
    /// A sink over a writer; its count of faults is 0.
    pub fn new(writer: W) -> StdSink<W>
        ensures { result ≡ record { writer = writer; faults = 0 } }
    {
        StdSink { writer, faults: 0 }
    }
}

impl<W: Writer> Sink for StdSink<W> {
    ghost held = { λ s. W.held s.writer };

    ghost faults = { λ s. s.faults };

    fn put(&mut self, bytes: &[u8]) -> Result<usize, Failed>
        requires { 0 < length bytes.now }
        ensures some { IfOk result (λ count. 0 < count) }
        ensures within { IfOk result (λ count. count ≤ length bytes.now) }
        ensures bytes { WriteAppends
            (W.held self.old.writer) (W.held self.new.writer) result bytes.now }
        ensures cause { HasCause self.old.faults self.new.faults result }
        ensures faults { CountsFault self.old.faults self.new.faults result }
        ensures write { AnswersWrite W.may_answer self.old.writer self.new.writer result }
    {
        match self.writer.write_once(bytes) {
            Ok(count) if count > 0 => Ok(count),
            _ => {
                self.faults = next(self.faults);
                Err(Failed)
            }
        }
    }
}
