// A reader of records. It takes no memory.
ghost use Rattle.std.specs.Prelude.{◌≡◌, ◌↔◌, ◌≤◌, ◌+◌, length, IfSome, IfNone, IfOk, IfErr, IsNone, IsSome};
ghost use Rattle.fan_record.specs.Records.{HasMetadata, NoRecord, SpellsRecord, record_end, parts_of};

use super::fields::{i32_at, u16_at, u32_at, u64_at};
use super::infos::are_infos;
use super::parts::{BadRecord, Record};
use std::marker::Model;

// The length of `struct fanotify_event_metadata`.
const METADATA_LEN: usize = 24;

// FANOTIFY_METADATA_VERSION.
const VERSION: u8 = 3;

/// Reads records one after the other. Contracts see its input and the place where the next record is
/// to begin, which is the input's end once a record was bad.
#[derive(Debug, Drop)]
pub struct Records<'a> {
    bytes: &'a [u8],
    at: usize,
}

impl<'a> Model for Records<'a> {
    ghost use Rattle.std.specs.Prelude.{◌≤◌, length};
    ghost use Rattle.fan_record.specs.Records.{Reading};

    ghost Value = { Reading };

    ghost view = { λ r. record { bytes = r.bytes.now; at = r.at } };

    ghost invariant = { λ r. r.at ≤ length r.bytes.now };
}

impl<'a> Records<'a> {
    /// A reader of these bytes, from their start on.
    pub fn new(bytes: &'a [u8]) -> Records<'a>
        ensures { result ≡ record { bytes = bytes.now; at = 0 } }
    {
        Records { bytes, at: 0 }
    }

    /// The next record, with the part of the input that its information records fill.
    /// None at the end of the input, and after a record that was bad.
    ///
    /// # Errors
    /// `BadRecord` if no record stands at this place: of 24 bytes of metadata a part is missing, the
    /// length (at 0) is below 24 or more than the bytes that are left, the version (at 4) isn't 3, the
    /// length of the metadata (at 6) isn't 24, or no information records fill the rest of the record.
    pub fn next(&mut self) -> Option<Result<Record<'a>, BadRecord>>
        ensures input { self.new.bytes ≡ self.old.bytes }
        ensures found { IfSome result (λ answer. IfOk answer (λ event.
            SpellsRecord self.old.bytes self.old.at (parts_of event))) }
        ensures after { IfSome result (λ answer. IfOk answer (λ event.
            self.new.at ≡ record_end self.old.bytes self.old.at)) }
        ensures bad { IfSome result (λ answer. IfErr answer (λ bad. bad.at ≡ self.old.at)) }
        ensures nothing { IfSome result (λ answer. IfErr answer (λ bad.
            NoRecord self.old.bytes self.old.at)) }
        ensures stops { IfSome result (λ answer. IfErr answer (λ bad.
            self.new.at ≡ length self.old.bytes)) }
        ensures end { IsNone result ↔ self.old.at ≡ length self.old.bytes }
        ensures stays { IsNone result → self.new ≡ self.old }
    {
        if self.at == self.bytes.len() {
            return None;
        }
        let at = self.at;
        match record_at(self.bytes, at) {
            Some((event, end)) => {
                self.at = end;
                Some(Ok(event))
            }
            None => {
                self.at = self.bytes.len();
                Some(Err(BadRecord { at }))
            }
        }
    }
}

// Where the record at a place ends, if its metadata is as it has to be.
fn end_at(bytes: &[u8], at: usize) -> Option<usize>
    requires { at ≤ length bytes.now }
    ensures value { IfSome result (λ end. end ≡ record_end bytes.now at) }
    ensures metadata { IsSome result ↔ HasMetadata bytes.now at }
{
    if bytes.len() - at < METADATA_LEN {
        return None;
    }
    let event_len = u32_at(bytes, at) as usize;
    if event_len < METADATA_LEN {
        return None;
    }
    if event_len > bytes.len() - at {
        return None;
    }
    if bytes[at + 4] != VERSION {
        return None;
    }
    if usize::from(u16_at(bytes, at + 6)) != METADATA_LEN {
        return None;
    }
    Some(at + event_len)
}

// The record at a place, and where it ends.
fn record_at<'a>(bytes: &'a [u8], at: usize) -> Option<(Record<'a>, usize)>
    requires { at ≤ length bytes.now }
    ensures found { IfSome result (λ found. SpellsRecord bytes.now at (parts_of found.0)) }
    ensures end { IfSome result (λ found. found.1 ≡ record_end bytes.now at) }
    ensures none { IfNone result (NoRecord bytes.now at) }
{
    let end = end_at(bytes, at)?;
    let infos = &bytes[at + METADATA_LEN..end];
    if !are_infos(infos) {
        return None;
    }
    let event = Record {
        mask: u64_at(bytes, at + 8),
        fd: i32_at(bytes, at + 16),
        pid: i32_at(bytes, at + 20),
        infos,
    };
    Some((event, end))
}
