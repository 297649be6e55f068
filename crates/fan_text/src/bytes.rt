// Bytes, two hexadecimal digits for each.
ghost use Rattle.std.specs.Prelude.{◌≡◌, ◌<◌, ◌++◌, ℕ, List, OnOk, OnErr, IfOk, IfSome, IfNone, IsTrue, option_map};
ghost use Rattle.std.specs.List.{list_all};
ghost use Rattle.fan_text.specs.Reading.{bytes_at, bytes_of, is_hex_digit, is_response};
ghost use Rattle.fan_text.specs.Spelling.{SpellsBytes, hex_digit, hex_text};

use crate::hex::{are_hex_digits, hex_value};
use fan_io::NoMemory;
use std::alloc::{AllocError, Global};

// The digits of 64 bytes, the most of a word.
const MOST_DIGITS: usize = 128;

// Whether a word is an even number of digits, from 2 to 128.
#[tactic(auto, unfolding(crate::specs::Reading::is_response))]
fn is_response(word: &[u8]) -> bool
    ensures { result ≡ is_response word.now }
{
    if word.is_empty() {
        return false;
    }
    if word.len() > MOST_DIGITS {
        return false;
    }
    if word.len() % 2 == 1 {
        return false;
    }
    are_hex_digits(word)
}

// The bytes that pairs of digits spell.
fn bytes_of(alloc: Global, digits: &[u8]) -> Result<Vec<u8>, AllocError>
    requires { IsTrue (list_all is_hex_digit digits.now) }
    ensures { IfOk result (λ bytes. bytes.items ≡ bytes_of digits.now) }
{
    let mut bytes = Vec::new(alloc);
    let mut rest = digits;
    while let [high, low, more @ ..] = rest {
        bytes.push(16 * hex_value(*high) + hex_value(*low))?;
        rest = more;
    }
    Ok(bytes)
}

/// The 1 to 64 bytes that a word spells, two lower-case digits for each; None for any other word.
#[tactic(auto, unfolding(crate::specs::Reading::bytes_at))]
pub fn read_bytes(alloc: Global, word: &[u8]) -> Result<Option<Vec<u8>>, NoMemory>
    ensures some { IfOk result (λ read. IfSome read (λ bytes. SpellsBytes word.now bytes.items)) }
    ensures none { IfOk result (λ read.
        IfNone read ((bytes : List ℕ) → SpellsBytes word.now bytes → ⊥)) }
    ensures value { IfOk result (λ read.
        option_map (λ bytes. bytes.items) read ≡ bytes_at word.now) }
{
    if !is_response(word) {
        return Ok(None);
    }
    Ok(Some(bytes_of(alloc, word)?))
}

fn hex_digit(value: u8) -> u8
    requires { value < 16 }
    ensures { result ≡ hex_digit value }
{
    if value < 10 {
        b'0' + value
    } else {
        b'a' - 10 + value
    }
}

/// Puts bytes at the end of a text, two lower-case digits for each. The text stays where memory runs out.
pub fn write_bytes(out: &mut Vec<u8>, bytes: &[u8]) -> Result<(), NoMemory>
    ensures ok { OnOk result (out.new.items ≡ out.old.items ++ hex_text bytes.now) }
    ensures err { OnErr result (out.new.items ≡ out.old.items) }
{
    out.reserve(2 * bytes.len())?;
    for byte in bytes {
        out.push_reserved(hex_digit(byte / 16));
        out.push_reserved(hex_digit(byte % 16));
    }
    Ok(())
}
