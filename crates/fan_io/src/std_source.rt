// A reader of the standard library as a source. It tells the bytes that the reader tells.
ghost use Rattle.std.specs.Prelude.{◌≡◌, ℕ, ◌<◌, ◌≤◌, ⊤, List, Option, Result, length, IfOk};
ghost use Rattle.std.specs.Io.KnownBytes.{ReadConsumes};
ghost use Rattle.std.specs.declared.io.Error.{Error};
ghost use Rattle.fan_io.specs.Calls.{AnswersRead};
ghost use Rattle.fan_io.specs.Faults.{CountsFault, HasCause};

use super::faults::{Failed, next};
use super::source::Source;
use std::io;
use std::io::Read;

/// A reader, and what a read of it may answer. Every reader of the standard library is one.
pub trait Reader {
    /// The bytes that it has left, where it tells them.
    ghost left: { Self → Option (List ℕ) };

    /// Whether a read of the first reader may give this answer and leave the second.
    ghost may_answer: { Self → Result ℕ Error → Self → Type 0 };

    /// Reads once: puts the next bytes at the front of `into`, and answers how many.
    fn read_once(&mut self, into: &mut [u8]) -> io::Result<usize>
        ensures within { IfOk result (λ count. count ≤ length into.new) }
        ensures bytes { ReadConsumes (left self.old) (left self.new) result into.new }
        ensures answer { may_answer self.old result self.new };
}

// The standard library doesn't say when a read fails, so no answer is ruled out here.
impl<R: Read> Reader for R {
    ghost left = { λ r. R.remaining r };

    ghost may_answer = { λ _ _ _. ⊤ };

    fn read_once(&mut self, into: &mut [u8]) -> io::Result<usize> {
        self.read(into)
    }
}

/// A reader as a source, with a count of its failures.
#[derive(Drop)]
pub struct StdSource<R> {
    reader: R,
    faults: u64,
}

impl<R: Reader> StdSource<R> {
    /// A source over a reader; its count of faults is 0.
    pub fn new(reader: R) -> StdSource<R>
        ensures { result ≡ record { reader = reader; faults = 0 } }
    {
        StdSource { reader, faults: 0 }
    }
}

impl<R: Reader> Source for StdSource<R> {
    ghost left = { λ s. R.left s.reader };

    ghost faults = { λ s. s.faults };

    fn take(&mut self, into: &mut [u8]) -> Result<usize, Failed>
        requires { 0 < length into.old }
        ensures within { IfOk result (λ count. count ≤ length into.new) }
        ensures bytes { ReadConsumes
            (R.left self.old.reader) (R.left self.new.reader) result into.new }
        ensures cause { HasCause self.old.faults self.new.faults result }
        ensures faults { CountsFault self.old.faults self.new.faults result }
        ensures read { AnswersRead R.may_answer self.old.reader self.new.reader result }
    {
        match self.reader.read_once(into) {
            Ok(count) => Ok(count),
            Err(_) => {
                self.faults = next(self.faults);
                Err(Failed)
            }
        }
    }
}
