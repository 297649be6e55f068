//! How many there are at each key: a map from keys to numbers, in which a missing key counts 0.
ghost use Rattle.std.specs.Prelude.{◌≡◌, ◌≤◌, ◌<◌, ◌+◌, ◌^◌, ◌==◌, ℕ, if◌then◌else◌};
ghost use Rattle.fan_map.specs.Counts.{number_at};

use super::Map;

/// The number at a key; 0 if the map has no such key.
pub fn number_at(counts: &Map<u32, u32>, key: u32) -> u32
    ensures { result ≡ number_at counts.now.entries key }
{
    counts.get(&key).copied().unwrap_or(0)
}

/// Adds one to the number at a key, for which there is room. Allocates nothing.
pub fn add_one(counts: &mut Map<u32, u32>, key: u32)
    requires room { 1 ≤ counts.old.spare }
    requires fits { number_at counts.old.entries key + 1 < 2 ^ 32 }
    ensures { (other : ℕ) → number_at counts.new.entries other
        ≡ number_at counts.old.entries other + (if key == other then 1 else 0) }
{
    match counts.get(&key).copied() {
        Some(number) => {
            counts.replace(&key, number + 1);
        }
        None => counts.insert_reserved(key, 1),
    }
}

/// Takes one from the number at a key, and forgets the key when none is left.
pub fn take_one(counts: &mut Map<u32, u32>, key: u32)
    requires { 1 ≤ number_at counts.old.entries key }
    ensures { (other : ℕ) → number_at counts.new.entries other + (if key == other then 1 else 0)
        ≡ number_at counts.old.entries other }
{
    let number = number_at(counts, key);
    if number > 1 {
        counts.replace(&key, number - 1);
    } else {
        counts.remove(&key);
    }
}
