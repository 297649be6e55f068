// The words of a line: each but the last ends before a space.
ghost use Rattle.std.specs.Prelude.{◌≡◌, ◌==◌, option_map, position};
ghost use Rattle.fan_script.specs.Reading.{Gives, split_at_space};

use crate::line::LineRefused;

// Where the first space is.
fn first_space(bytes: &[u8]) -> Option<usize>
    ensures { result ≡ position (λ byte. byte == 32) bytes.now }
{
    bytes.iter().position(|byte| *byte == b' ')
}

// The bytes before the first space, and those behind it.
#[tactic(auto, unfolding(crate::specs::Reading::split_at_space))]
pub(crate) fn split_at_space(bytes: &[u8]) -> Option<(&[u8], &[u8])>
    ensures { option_map (λ parts. (parts.0.now, parts.1.now)) result ≡ split_at_space bytes.now }
{
    let at = first_space(bytes)?;
    Some((&bytes[..at], &bytes[at + 1..]))
}

// The first word, which ends before a space, and the bytes behind the space.
pub(crate) fn split_word(bytes: &[u8]) -> Result<(&[u8], &[u8]), LineRefused>
    ensures { Gives (λ parts. (parts.0.now, parts.1.now)) result (split_at_space bytes.now) }
{
    split_at_space(bytes).ok_or(LineRefused::BadLine)
}
