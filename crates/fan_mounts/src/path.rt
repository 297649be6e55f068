// The last name of a path, and what stands before it.
ghost use Rattle.std.specs.Prelude.{◌≡◌, ◌≢◌, ◌<◌, ◌∷◌, ℕ, [], IfSome, IfNone, length, reverse, slice_index};
ghost use Rattle.fan_mounts.specs.Reaches.{names_of};

/// A path without its last name, and that name; None exactly where the path has no name, as `/`.
pub fn split_last(path: &[u8]) -> Option<(&[u8], &[u8])>
    ensures some { IfSome result (λ parts.
        reverse (names_of path.now) ≡ parts.1.now ∷ reverse (names_of parts.0.now)) }
    ensures none { IfNone result (names_of path.now ≡ []) }
{
    let end = last_byte(path)?;
    let path = &path[..=end];
    match last_slash(path) {
        Some(slash) => Some((&path[..slash], &path[slash + 1..])),
        None => Some((&[], path)),
    }
}

// Where the last byte stands that is no slash.
fn last_byte(path: &[u8]) -> Option<usize>
    ensures within { IfSome result (λ at. at < length path.now) }
    ensures at { IfSome result (λ at. slice_index path.now at ≢ 47) }
    ensures behind { IfSome result (λ at.
        (k : ℕ) → at < k → k < length path.now → slice_index path.now k ≡ 47) }
    ensures none { IfNone result ((k : ℕ) → k < length path.now → slice_index path.now k ≡ 47) }
{
    path.iter().rposition(|byte| *byte != b'/')
}

// Where the last slash stands.
fn last_slash(path: &[u8]) -> Option<usize>
    ensures within { IfSome result (λ at. at < length path.now) }
    ensures at { IfSome result (λ at. slice_index path.now at ≡ 47) }
    ensures behind { IfSome result (λ at.
        (k : ℕ) → at < k → k < length path.now → slice_index path.now k ≢ 47) }
    ensures none { IfNone result ((k : ℕ) → k < length path.now → slice_index path.now k ≢ 47) }
{
    path.iter().rposition(|byte| *byte == b'/')
}
