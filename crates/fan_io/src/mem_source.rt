// A source over bytes in memory, some of whose calls fail.
ghost use Rattle.std.specs.Prelude.{◌≡◌, ◌↔◌, ℕ, ◌<◌, ◌≤◌, [], Some, length, min, take, Contains, IfOk, IsErr};
ghost use Rattle.std.specs.Io.KnownBytes.{ReadConsumes};
ghost use Rattle.fan_io.specs.Faults.{CountsFault, HasCause, next_count};

use super::faults::{Failed, next};
use super::source::Source;
use std::marker::Model;

/// Bytes in memory as a source.
#[derive(Debug, Drop)]
pub struct MemSource {
    bytes: Vec<u8>,
    at: usize,
    failing: Vec<u64>,
    calls: u64,
    faults: u64,
}

impl Model for MemSource {
    ghost use Rattle.std.specs.Prelude.{◌≤◌, drop, length};
    ghost use Rattle.fan_io.specs.Memory.{MemSourceState};

    ghost Value = { MemSourceState };

    ghost view = { λ s. record {
      left = drop s.at s.bytes.items;
      failing = s.failing.items;
      calls = s.calls;
      faults = s.faults;
    } };

    ghost invariant = { λ s. s.at ≤ length s.bytes.items };
}

impl MemSource {
    /// A source of these bytes. The calls of `take` whose numbers stand in `failing`, counted
    /// from 1, fail.
    pub fn new(bytes: Vec<u8>, failing: Vec<u64>) -> MemSource
        ensures { result ≡ record {
          left = bytes.items;
          failing = failing.items;
          calls = 0;
          faults = 0;
        } }
    {
        MemSource {
            bytes,
            at: 0,
            failing,
            calls: 0,
            faults: 0,
        }
    }
}

impl Source for MemSource {
    ghost left = { λ s. Some s.left };

    ghost faults = { λ s. s.faults };

    fn take(&mut self, into: &mut [u8]) -> Result<usize, Failed>
        requires { 0 < length into.old }
        ensures within { IfOk result (λ count. count ≤ length into.new) }
        ensures bytes { ReadConsumes (Some self.old.left) (Some self.new.left) result into.new }
        ensures cause { HasCause self.old.faults self.new.faults result }
        ensures fails { IsErr result ↔ Contains self.old.failing (next_count self.old.calls) }
        ensures most { IfOk result (λ count.
            count ≡ min (length into.old) (length self.old.left)) }
        ensures plan { self.new.failing ≡ self.old.failing }
        ensures calls { self.new.calls ≡ next_count self.old.calls }
        ensures faults { CountsFault self.old.faults self.new.faults result }
    {
        self.calls = next(self.calls);
        if self.failing.contains(&self.calls) {
            self.faults = next(self.faults);
            return Err(Failed);
        }
        let count = copy_front(&self.bytes[self.at..], into);
        self.at += count;
        Ok(count)
    }
}

// Copies as many bytes as both have to the front of the second, and answers how many.
fn copy_front(from: &[u8], into: &mut [u8]) -> usize
    ensures count { result ≡ min (length into.old) (length from.now) }
    ensures copied { take result into.new ≡ take result from.now }
{
    let count = into.len().min(from.len());
    into[..count].copy_from_slice(&from[..count]);
    count
}
