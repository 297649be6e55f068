// Where bytes go, and how all of a text is put.
ghost use Rattle.std.specs.Prelude.{◌≡◌, ℕ, ◌<◌, ◌≤◌, List, Option, length, IfOk, OnOk};
ghost use Rattle.std.specs.Io.KnownBytes.{Appends, WriteAppends};
ghost use Rattle.fan_io.specs.Faults.{HasCause};
ghost use Rattle.fan_io.specs.Bytes.{AppendsFront};

use super::faults::Failed;

/// A sink of bytes.
pub trait Sink {
    /// The bytes that were put into it, where it tells them.
    ghost held: { Self → Option (List ℕ) };

    /// How many of its calls failed; at 2^64 - 1 the count stands still.
    ghost faults: { Self → ℕ };

    /// Appends a front of a piece, at least one byte of it, and answers how many.
    /// `Failed` comes only where the count of faults rose, and moves no bytes.
    fn put(&mut self, bytes: &[u8]) -> Result<usize, Failed>
        requires { 0 < length bytes.now }
        ensures some { IfOk result (λ count. 0 < count) }
        ensures within { IfOk result (λ count. count ≤ length bytes.now) }
        ensures bytes { WriteAppends (held self.old) (held self.new) result bytes.now }
        ensures cause { HasCause (faults self.old) (faults self.new) result };
}

/// Puts all bytes, or a front of them where the sink fails.
pub fn put_all<K: Sink>(sink: &mut K, bytes: &[u8]) -> Result<(), Failed>
    ensures whole { OnOk result (Appends (K.held sink.old) (K.held sink.new) bytes.now) }
    ensures front { AppendsFront (K.held sink.old) (K.held sink.new) bytes.now }
    ensures cause { HasCause (K.faults sink.old) (K.faults sink.new) result }
{
    let mut at = 0;
    while at < bytes.len() {
        let count = sink.put(&bytes[at..])?;
        at += count;
    }
    Ok(())
}
