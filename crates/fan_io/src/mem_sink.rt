// A sink that keeps its bytes in memory, and some of whose calls fail.
ghost use Rattle.std.specs.Prelude.{◌≡◌, ◌⊎◌, ℕ, ◌+◌, ◌<◌, ◌≤◌, [], Some, length, Contains, IfOk, IsErr, OnErr, OnOk};
ghost use Rattle.std.specs.Io.KnownBytes.{WriteAppends};
ghost use Rattle.fan_io.specs.Faults.{CountsFault, HasCause, next_count};

use super::faults::{Failed, NoMemory, next};
use super::sink::Sink;
use std::alloc::Global;
use std::marker::Model;

/// A sink in memory.
#[derive(Debug, Drop)]
pub struct MemSink {
    bytes: Vec<u8>,
    failing: Vec<u64>,
    calls: u64,
    faults: u64,
}

impl Model for MemSink {
    ghost use Rattle.std.specs.Prelude.{vec_capacity};
    ghost use Rattle.fan_io.specs.Memory.{MemSinkState};

    ghost Value = { MemSinkState };

    ghost view = { λ s. record {
      held = s.bytes.items;
      room = vec_capacity s.bytes;
      failing = s.failing.items;
      calls = s.calls;
      faults = s.faults;
    } };
}

impl MemSink {
    /// An empty sink. The calls of `put` whose numbers stand in `failing`, counted from 1, fail.
    /// So does one that finds no memory for its piece.
    pub fn new(alloc: Global, failing: Vec<u64>) -> MemSink
        ensures { result ≡ record {
          held = [];
          room = 0;
          failing = failing.items;
          calls = 0;
          faults = 0;
        } }
    {
        MemSink {
            bytes: Vec::new(alloc),
            failing,
            calls: 0,
            faults: 0,
        }
    }

    /// Makes room for so many more bytes. Where no memory is found, the sink is as it was.
    pub fn reserve(&mut self, more: usize) -> Result<(), NoMemory>
        ensures ok { OnOk result (length self.old.held + more ≤ self.new.room) }
        ensures same { self.new ≡ record self.old { room = self.new.room } }
        ensures err { OnErr result (self.new ≡ self.old) }
    {
        self.bytes.reserve(more)?;
        Ok(())
    }

    /// The bytes that were put.
    pub fn bytes(&self) -> &[u8]
        ensures { result.now ≡ self.now.held }
    {
        self.bytes.as_slice()
    }
}

impl Sink for MemSink {
    ghost held = { λ s. Some s.held };

    ghost faults = { λ s. s.faults };

    fn put(&mut self, bytes: &[u8]) -> Result<usize, Failed>
        requires { 0 < length bytes.now }
        ensures some { IfOk result (λ count. 0 < count) }
        ensures within { IfOk result (λ count. count ≤ length bytes.now) }
        ensures bytes { WriteAppends (Some self.old.held) (Some self.new.held) result bytes.now }
        ensures cause { HasCause self.old.faults self.new.faults result }
        ensures fails { Contains self.old.failing (next_count self.old.calls) → IsErr result }
        ensures only { OnErr result (Contains self.old.failing (next_count self.old.calls)
            ⊎ (self.old.room < length self.old.held + length bytes.now)) }
        ensures room { self.old.room ≤ self.new.room }
        ensures whole { IfOk result (λ count. count ≡ length bytes.now) }
        ensures plan { self.new.failing ≡ self.old.failing }
        ensures calls { self.new.calls ≡ next_count self.old.calls }
        ensures faults { CountsFault self.old.faults self.new.faults result }
    {
        self.calls = next(self.calls);
        if self.failing.contains(&self.calls) || self.bytes.extend_from_slice(bytes).is_err() {
            self.faults = next(self.faults);
            return Err(Failed);
        }
        Ok(bytes.len())
    }
}
