// The bytes of a name: a few stand in place, more of them in memory of their own.
ghost use Rattle.std.specs.Prelude.{◌≡◌, ◌≤◌, IfOk, length};
ghost use Rattle.fan_event.specs.NameBytes.{IsHeld, bytes_in};

use fan_io::{Items, NoMemory};
use std::alloc::Global;

// How many bytes stand in place. With their number they take no more room than a box.
const FEW: usize = 14;

/// The bytes of a name.
#[derive(Debug, Drop)]
pub(crate) enum NameBytes {
    /// So many of these.
    Few { count: u8, bytes: [u8; FEW] },
    /// All of these.
    Many(Box<Items<u8>>),
}

impl NameBytes {
    /// A copy of some bytes. Takes no memory for a few.
    pub(crate) fn of(alloc: Global, bytes: &[u8]) -> Result<NameBytes, NoMemory>
        ensures bytes { IfOk result (λ held. bytes_in held ≡ bytes.now) }
        ensures whole { IfOk result IsHeld }
    {
        if bytes.len() <= FEW {
            return Ok(few(bytes));
        }
        let copy = Items::from_vec(Vec::from_slice(alloc, bytes)?);
        Ok(NameBytes::Many(Box::new(alloc, copy)?))
    }

    /// The bytes.
    pub(crate) fn as_slice(&self) -> &[u8]
        requires { IsHeld self.now }
        ensures { result.now ≡ bytes_in self.now }
    {
        match self {
            NameBytes::Few { count, bytes } => &bytes[..usize::from(*count)],
            NameBytes::Many(bytes) => bytes.as_slice(),
        }
    }
}

// A copy of a few bytes.
fn few(bytes: &[u8]) -> NameBytes
    requires { length bytes.now ≤ 14 }
    ensures bytes { bytes_in result ≡ bytes.now }
    ensures whole { IsHeld result }
{
    let mut copy = [0; FEW];
    copy[..bytes.len()].copy_from_slice(bytes);
    NameBytes::Few {
        count: bytes.len() as u8,
        bytes: copy,
    }
}
