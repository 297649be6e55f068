// Texts that are gathered, and put block by block.
ghost use Rattle.std.specs.Prelude.{◌≡◌, ◌⊎◌, ◌<◌, ◌++◌, [], length, OnErr, OnOk};
ghost use Rattle.std.specs.Io.KnownBytes.{Appends};
ghost use Rattle.fan_blocks.specs.BlocksState.{next_size};
ghost use Rattle.fan_blocks.specs.Gathers.{Gathers};
ghost use Rattle.fan_io.specs.Bytes.{AppendsFront};
ghost use Rattle.fan_io.specs.Faults.{HasCause};

use fan_io::{Failed, Sink, put_all};
use std::alloc::Global;
use std::marker::Model;

// The most bytes at which a block is full.
const MOST_SIZE: usize = 65_536;

/// Texts on their way to a sink. They wait until the block is full that they make together, and are
/// then put as one. The first text fills its block by itself; each further block is full at twice
/// the length of the one before, or at 65,536 bytes. So whoever reads what the sink gets sees the
/// first text at once, and many texts come by few puts.
#[derive(Debug, Drop)]
pub struct Blocks {
    text: Vec<u8>,
    size: usize,
}

impl Model for Blocks {
    ghost use Rattle.std.specs.Prelude.{◌<◌, ◌≤◌, length};
    ghost use Rattle.fan_blocks.specs.BlocksState.{BlocksState, most_size};

    ghost Value = { BlocksState };

    ghost view = { λ b. record { gathered = b.text.items; size = b.size } };

    ghost invariant = { λ b. (length b.text.items < b.size) × (b.size ≤ most_size) };
}

// Puts a text, and empties it, also where the sink fails.
fn put_out<K: Sink>(text: &mut Vec<u8>, sink: &mut K) -> Result<(), Failed>
    ensures whole { OnOk result (Appends (K.held sink.old) (K.held sink.new) text.old.items) }
    ensures front { AppendsFront (K.held sink.old) (K.held sink.new) text.old.items }
    ensures empty { text.new.items ≡ [] }
    ensures cause { HasCause (K.faults sink.old) (K.faults sink.new) result }
{
    let done = put_all(sink, text);
    text.clear();
    done
}

// Puts what waits and then a text, each by itself. Needs no memory.
fn put_both<K: Sink>(waiting: &mut Vec<u8>, text: &[u8], sink: &mut K) -> Result<(), Failed>
    ensures whole { OnOk result
        (Appends (K.held sink.old) (K.held sink.new) (waiting.old.items ++ text.now)) }
    ensures front { AppendsFront
        (K.held sink.old) (K.held sink.new) (waiting.old.items ++ text.now) }
    ensures empty { waiting.new.items ≡ [] }
    ensures cause { HasCause (K.faults sink.old) (K.faults sink.new) result }
{
    put_out(waiting, sink)?;
    put_all(sink, text)
}

impl Blocks {
    /// No text waits, and the first to come is put at once.
    pub fn new(alloc: Global) -> Blocks
        ensures { result ≡ record { gathered = []; size = 1 } }
    {
        Blocks {
            text: Vec::new(alloc),
            size: 1,
        }
    }

    /// Gathers a text, and puts all that waits once the block is full, or where no memory is found
    /// for the text to wait.
    ///
    /// # Errors
    /// `Failed` if the sink failed; a front of what waited and of the text was put, and nothing
    /// waits any more.
    pub fn push<K: Sink>(&mut self, text: &[u8], sink: &mut K) -> Result<(), Failed>
        ensures ok { OnOk result (Gathers (K.held sink.old) (K.held sink.new) self.new.gathered
            (self.old.gathered ++ text.now)) }
        ensures front { AppendsFront
            (K.held sink.old) (K.held sink.new) (self.old.gathered ++ text.now) }
        ensures err { OnErr result (self.new.gathered ≡ []) }
        ensures waits { length self.new.gathered < self.old.size }
        ensures size { (self.new.size ≡ self.old.size)
            ⊎ (self.new.size ≡ next_size (self.old.gathered ++ text.now)) }
        ensures cause { HasCause (K.faults sink.old) (K.faults sink.new) result }
    {
        if self.text.extend_from_slice(text).is_err() {
            return put_both(&mut self.text, text, sink);
        }
        if self.text.len() < self.size {
            return Ok(());
        }
        self.size = self.text.len().saturating_mul(2).min(MOST_SIZE);
        put_out(&mut self.text, sink)
    }

    /// Puts all that waits.
    ///
    /// # Errors
    /// `Failed` if the sink failed; a front of what waited was put, and nothing waits any more.
    pub fn flush<K: Sink>(&mut self, sink: &mut K) -> Result<(), Failed>
        ensures whole { OnOk result
            (Appends (K.held sink.old) (K.held sink.new) self.old.gathered) }
        ensures front { AppendsFront (K.held sink.old) (K.held sink.new) self.old.gathered }
        ensures empty { self.new.gathered ≡ [] }
        ensures size { self.new.size ≡ self.old.size }
        ensures cause { HasCause (K.faults sink.old) (K.faults sink.new) result }
    {
        put_out(&mut self.text, sink)
    }
}
