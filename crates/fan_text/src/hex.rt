// Hexadecimal numbers, and their digits.
ghost use Rattle.std.specs.Prelude.{◌≡◌, ◌≤◌, ◌<◌, ℕ, length, IfSome, IfNone, IsTrue};
ghost use Rattle.std.specs.List.{list_all};
ghost use Rattle.std.specs.Str.Parse.{digits_value};
ghost use Rattle.fan_text.specs.Reading.{hex_at, hex_value, is_hex_digit};
ghost use Rattle.fan_text.specs.Spelling.{SpellsHex};

use crate::numerals::is_numeral;

// The digits of 2^64 - 1, the greatest number.
const MOST_HEX_DIGITS: usize = 16;

fn is_hex_digit(byte: u8) -> bool
    ensures { result ≡ is_hex_digit byte }
{
    matches!(byte, b'0'..=b'9' | b'a'..=b'f')
}

pub(crate) fn are_hex_digits(bytes: &[u8]) -> bool
    ensures { result ≡ list_all is_hex_digit bytes.now }
{
    bytes.iter().all(|byte| is_hex_digit(*byte))
}

pub(crate) fn hex_value(digit: u8) -> u8
    requires { IsTrue (is_hex_digit digit) }
    ensures value { result ≡ hex_value digit }
    ensures small { result < 16 }
{
    if digit <= b'9' {
        digit - b'0'
    } else {
        digit - b'a' + 10
    }
}

// The number that at most sixteen digits spell.
fn digits_value(digits: &[u8]) -> u64
    requires digits { IsTrue (list_all is_hex_digit digits.now) }
    requires short { length digits.now ≤ 16 }
    ensures { result ≡ digits_value 16 digits.now }
{
    let mut value = 0;
    for digit in digits {
        value = 16 * value + u64::from(hex_value(*digit));
    }
    value
}

/// The number below 2^64 that a word spells in lower-case hexadecimal without leading zeros; None for
/// any other word.
#[tactic(auto, unfolding(crate::specs::Reading::hex_at))]
pub fn read_hex(word: &[u8]) -> Option<u64>
    ensures some { IfSome result (λ number. SpellsHex word.now number) }
    ensures none { IfNone result ((number : ℕ) → SpellsHex word.now number → ⊥) }
    ensures value { result ≡ hex_at word.now }
{
    if !is_numeral(word, MOST_HEX_DIGITS) {
        return None;
    }
    if !are_hex_digits(word) {
        return None;
    }
    Some(digits_value(word))
}
