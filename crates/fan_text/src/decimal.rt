// Decimal numbers.
ghost use Rattle.std.specs.Prelude.{◌≡◌, ◌≤◌, ℕ, length, IfSome, IfNone, IsTrue};
ghost use Rattle.std.specs.Char.{is_ascii_digit};
ghost use Rattle.std.specs.List.{list_all};
ghost use Rattle.std.specs.Str.Parse.{digits_value};
ghost use Rattle.fan_text.specs.Reading.{decimal_at};
ghost use Rattle.fan_text.specs.Spelling.{SpellsDecimal};

use crate::numerals::is_numeral;

// The digits of 2^64 - 1, the greatest number.
const MOST_DIGITS: usize = 20;

fn are_digits(bytes: &[u8]) -> bool
    ensures { result ≡ list_all is_ascii_digit bytes.now }
{
    bytes.iter().all(|byte| byte.is_ascii_digit())
}

// The number that at most twenty digits spell.
fn digits_value(digits: &[u8]) -> u128
    requires digits { IsTrue (list_all is_ascii_digit digits.now) }
    requires short { length digits.now ≤ 20 }
    ensures { result ≡ digits_value 10 digits.now }
{
    let mut value = 0;
    for digit in digits {
        value = 10 * value + u128::from(*digit - b'0');
    }
    value
}

/// The number below 2^64 that a word spells as a decimal without leading zeros; None for any other word.
#[tactic(auto, unfolding(crate::specs::Reading::decimal_at))]
pub fn read_decimal(word: &[u8]) -> Option<u64>
    ensures some { IfSome result (λ number. SpellsDecimal word.now number) }
    ensures none { IfNone result ((number : ℕ) → SpellsDecimal word.now number → ⊥) }
    ensures value { result ≡ decimal_at word.now }
{
    if !is_numeral(word, MOST_DIGITS) {
        return None;
    }
    if !are_digits(word) {
        return None;
    }
    u64::try_from(digits_value(word)).ok()
}
