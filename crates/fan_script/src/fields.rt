// The fields of a line: each is a word, and all but the last end before a space.
ghost use Rattle.fan_text.specs.Reading.{bytes_at};
ghost use Rattle.fan_script.specs.Reading.{Gives, number_at, number_and_rest, flags_at, flags_and_rest, mask_and_rest, path_at};

use crate::line::LineRefused;
use crate::words::split_word;
use fan_io::Items;
use fan_text::{read_bytes, read_decimal, read_hex, read_path};
use std::alloc::Global;

// The number that a word spells, where it is from `least` to `most`.
#[tactic(auto, unfolding(crate::specs::Reading::number_at))]
pub(crate) fn number(word: &[u8], least: u32, most: u32) -> Result<u32, LineRefused>
    ensures { Gives (λ n. n) result (number_at least most word.now) }
{
    let value = read_decimal(word).ok_or(LineRefused::BadLine)?;
    if value < u64::from(least) {
        return Err(LineRefused::BadLine);
    }
    if value > u64::from(most) {
        return Err(LineRefused::BadLine);
    }
    Ok(value as u32)
}

// The number that the first word spells, and the bytes behind its space.
#[tactic(auto, unfolding(crate::specs::Reading::number_and_rest))]
pub(crate) fn split_number(bytes: &[u8], least: u32, most: u32) -> Result<(u32, &[u8]), LineRefused>
    ensures { Gives (λ parts. (parts.0, parts.1.now)) result
        (number_and_rest least most bytes.now) }
{
    let (word, rest) = split_word(bytes)?;
    Ok((number(word, least, most)?, rest))
}

// The flags, below 2^32, that a word spells in hexadecimal.
#[tactic(auto, unfolding(crate::specs::Reading::flags_at))]
pub(crate) fn flags(word: &[u8]) -> Result<u32, LineRefused>
    ensures { Gives (λ n. n) result (flags_at word.now) }
{
    let value = read_hex(word).ok_or(LineRefused::BadLine)?;
    if value > u64::from(u32::MAX) {
        return Err(LineRefused::BadLine);
    }
    Ok(value as u32)
}

// The flags that the first word spells, and the bytes behind its space.
#[tactic(auto, unfolding(crate::specs::Reading::flags_and_rest))]
pub(crate) fn split_flags(bytes: &[u8]) -> Result<(u32, &[u8]), LineRefused>
    ensures { Gives (λ parts. (parts.0, parts.1.now)) result (flags_and_rest bytes.now) }
{
    let (word, rest) = split_word(bytes)?;
    Ok((flags(word)?, rest))
}

// The mask, below 2^64, that the first word spells in hexadecimal, and the bytes behind its space.
#[tactic(auto, unfolding(crate::specs::Reading::mask_and_rest))]
pub(crate) fn split_mask(bytes: &[u8]) -> Result<(u64, &[u8]), LineRefused>
    ensures { Gives (λ parts. (parts.0, parts.1.now)) result (mask_and_rest bytes.now) }
{
    let (word, rest) = split_word(bytes)?;
    let mask = read_hex(word).ok_or(LineRefused::BadLine)?;
    Ok((mask, rest))
}

// The path that a word is.
#[tactic(auto, unfolding(crate::specs::Reading::path_at))]
pub(crate) fn path(alloc: Global, word: &[u8]) -> Result<Items<u8>, LineRefused>
    ensures { Gives (λ it. it) result (path_at word.now) }
{
    if !read_path(word) {
        return Err(LineRefused::BadLine);
    }
    Ok(Items::from_vec(Vec::from_slice(alloc, word)?))
}

// The response that a word spells.
pub(crate) fn response(alloc: Global, word: &[u8]) -> Result<Items<u8>, LineRefused>
    ensures { Gives (λ it. it) result (bytes_at word.now) }
{
    match read_bytes(alloc, word)? {
        Some(bytes) => Ok(Items::from_vec(bytes)),
        None => Err(LineRefused::BadLine),
    }
}
