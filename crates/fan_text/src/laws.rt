// Laws of spellings, each the contract of a function that does nothing.
ghost use Rattle.std.specs.Prelude.{◌≡◌, ◌↔◌, ℕ, ◌<◌, ◌^◌, List, Some};
ghost use Rattle.fan_text.specs.Reading.{bytes_at, decimal_at, hex_at};
ghost use Rattle.fan_text.specs.Spelling.{IsResponse, SpellsBytes, SpellsDecimal, SpellsHex, hex_text};

/// What is written of 1 to 64 bytes is read again.
pub fn bytes_are_read_again()
    ensures { (bytes : List ℕ) → IsResponse bytes → bytes_at (hex_text bytes) ≡ Some bytes }
{}

/// The readers read just the spellings.
pub fn one_spelling_each()
    ensures decimal { (word : List ℕ) (number : ℕ) →
        (decimal_at word ≡ Some number) ↔ SpellsDecimal word number }
    ensures hex { (word : List ℕ) (number : ℕ) →
        (hex_at word ≡ Some number) ↔ SpellsHex word number }
    ensures bytes { (word bytes : List ℕ) → (bytes_at word ≡ Some bytes) ↔ SpellsBytes word bytes }
{}
