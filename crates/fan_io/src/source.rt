// Where bytes come from, and how all of them are taken.
ghost use Rattle.std.specs.Prelude.{◌≡◌, ◌≢◌, ℕ, ◌<◌, ◌≤◌, List, Option, length, IfOk, OnOk};
ghost use Rattle.std.specs.Io.KnownBytes.{Consumes, IsAtEnd, ReadConsumes};
ghost use Rattle.fan_io.specs.Faults.{HasCause, Rose};
ghost use Rattle.fan_io.specs.Bytes.{GaveMore, GaveAtMost};

use super::faults::{Failed, NoMemory};
use std::alloc::Global;
use thiserror::Error;

/// A source of bytes.
pub trait Source {
    /// The bytes that it has left, where it tells them.
    ghost left: { Self → Option (List ℕ) };

    /// How many of its calls failed; at 2^64 - 1 the count stands still.
    ghost faults: { Self → ℕ };

    /// Puts the next bytes at the front of `into`, and answers how many. 0 comes at the end alone.
    /// `Failed` comes only where the count of faults rose, and moves no bytes.
    fn take(&mut self, into: &mut [u8]) -> Result<usize, Failed>
        requires { 0 < length into.old }
        ensures within { IfOk result (λ count. count ≤ length into.new) }
        ensures bytes { ReadConsumes (left self.old) (left self.new) result into.new }
        ensures cause { HasCause (faults self.old) (faults self.new) result };
}

/// Why `take_all` gave no bytes.
#[derive(Clone, Copy, Debug, PartialEq, Eq, Error)]
pub enum TakeRefused {
    /// The source failed.
    #[error("the source failed")]
    Failed,
    /// The source gave more bytes than the limit.
    #[error("the source gave too many bytes")]
    TooLong,
    /// No memory was found for the bytes.
    #[error("out of memory")]
    NoMemory,
}

const PIECE: usize = 4096;

/// All bytes to the end of the source. `TooLong` comes exactly where it gave more than `limit`
/// bytes, `Failed` only where its count of faults rose.
pub fn take_all<S: Source>(
    alloc: Global,
    source: &mut S,
    limit: usize,
) -> Result<Vec<u8>, TakeRefused>
    ensures whole { IfOk result (λ all.
        Consumes (S.left source.old) (S.left source.new) all.items) }
    ensures end { OnOk result (IsAtEnd (S.left source.new)) }
    ensures room { IfOk result (λ all. length all.items ≤ limit) }
    ensures too_long { result ≡ Err TakeRefused.TooLong →
        GaveMore (S.left source.old) (S.left source.new) limit }
    ensures not_too_long { result ≢ Err TakeRefused.TooLong →
        GaveAtMost (S.left source.old) (S.left source.new) limit }
    ensures failed { result ≡ Err TakeRefused.Failed →
        Rose (S.faults source.old) (S.faults source.new) }
    ensures kept { S.faults source.old ≤ S.faults source.new }
{
    let mut all = Vec::new(alloc);
    let mut piece = [0u8; PIECE];
    loop {
        let count = match source.take(&mut piece) {
            Ok(count) => count,
            Err(Failed) => return Err(TakeRefused::Failed),
        };
        if count == 0 {
            return Ok(all);
        }
        if count > limit - all.len() {
            return Err(TakeRefused::TooLong);
        }
        if all.extend_from_slice(&piece[..count]).is_err() {
            return Err(TakeRefused::NoMemory);
        }
    }
}
