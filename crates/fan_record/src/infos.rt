// The frames of information records: where each ends, and whether they fill a part.
ghost use Rattle.std.specs.Prelude.{◌≡◌, ◌↔◌, ◌≤◌, ◌<◌, ℕ, length, drop, Contains, IfSome, IfNone, IsTrue};
ghost use Rattle.fan_record.specs.Fields.{u16_at};
ghost use Rattle.fan_record.specs.Infos.{AreInfos, BeginsWithInfo, HasHandle, handle_end, info_type};

use super::fields::{u16_at, u32_at};

// The length of `struct fanotify_event_info_header`.
const HEADER_LEN: usize = 4;

// Where the length of an information record stands.
const LEN: usize = 2;

// Where the length of its handle stands.
const HANDLE_BYTES: usize = 12;

// Where its handle begins.
const HANDLE: usize = 20;

/// Where the handle of an information record ends that has one. The handle begins at 20, and its
/// length stands at 12 (`struct file_handle`, open_by_handle_at(2)). None if the bytes are fewer.
pub fn handle_end(info: &[u8]) -> Option<usize>
    ensures some { IfSome result (λ end. end ≡ handle_end info.now) }
    ensures within { IfSome result (λ end. end ≤ length info.now) }
    ensures none { IfNone result (length info.now < handle_end info.now) }
{
    if info.len() < HANDLE {
        return None;
    }
    let end = HANDLE + u32_at(info, HANDLE_BYTES) as usize;
    if end > info.len() {
        return None;
    }
    Some(end)
}

// Whether a handle and a name that ends stand in an information record of type DFID_NAME.
fn has_name(info: &[u8]) -> bool
    ensures handle { IsTrue result → handle_end info.now ≤ length info.now }
    ensures name { IsTrue result ↔ Contains (drop (handle_end info.now) info.now) 0 }
{
    match handle_end(info) {
        Some(end) => info[end..].contains(&0),
        None => false,
    }
}

// Whether what the type asks for stands in an information record.
fn has_parts(info: &[u8]) -> bool
    requires { 4 ≤ length info.now }
    ensures handle { IsTrue result → HasHandle (info_type info.now)
        → handle_end info.now ≤ length info.now }
    ensures name { IsTrue result → info_type info.now ≡ 2
        → Contains (drop (handle_end info.now) info.now) 0 }
    ensures only { (HasHandle (info_type info.now) → handle_end info.now ≤ length info.now)
        → (info_type info.now ≡ 2 → Contains (drop (handle_end info.now) info.now) 0)
        → IsTrue result }
{
    match info[0] {
        1 | 3 => handle_end(info).is_some(),
        2 => has_name(info),
        _ => true,
    }
}

// The length of the information record at the front.
fn front_len(bytes: &[u8]) -> Option<usize>
    ensures some { IfSome result (λ len. BeginsWithInfo bytes.now len) }
    ensures none { IfNone result ((len : ℕ) → BeginsWithInfo bytes.now len → ⊥) }
{
    if bytes.len() < HEADER_LEN {
        return None;
    }
    let len = usize::from(u16_at(bytes, LEN));
    if len < HEADER_LEN {
        return None;
    }
    if len > bytes.len() {
        return None;
    }
    if !has_parts(&bytes[..len]) {
        return None;
    }
    Some(len)
}

/// The length in bytes of the information record at the front. None if none stands there: its header
/// of 4 bytes, its length (at 2, at least 4), its handle (types 1 to 3) or the 0 behind its name (type
/// 2) isn't there or isn't whole (fanotify(7), `struct fanotify_event_info_fid`). Any other type is
/// taken.
pub fn info_len(bytes: &[u8]) -> Option<usize>
    ensures some { IfSome result (λ len. BeginsWithInfo bytes.now len) }
    ensures value { IfSome result (λ len. len ≡ u16_at 2 bytes.now) }
    ensures only { IfSome result (λ len. (n : ℕ) → BeginsWithInfo bytes.now n → n ≡ len) }
    ensures rest { IfSome result (λ len. AreInfos bytes.now ↔ AreInfos (drop len bytes.now)) }
    ensures none { IfNone result ((len : ℕ) → BeginsWithInfo bytes.now len → ⊥) }
    ensures empty { IfNone result (AreInfos bytes.now → length bytes.now ≡ 0) }
{
    front_len(bytes)
}

// Whether bytes are information records, one after the other.
pub(crate) fn are_infos(bytes: &[u8]) -> bool
    ensures { IsTrue result ↔ AreInfos bytes.now }
{
    let mut rest = bytes;
    while !rest.is_empty() {
        let Some(len) = info_len(rest) else {
            return false;
        };
        rest = &rest[len..];
    }
    true
}
