// A reader of information records. It takes no memory.
ghost use Rattle.std.specs.Prelude.{◌≡◌, ◌↔◌, ◌≤◌, ◌+◌, length, drop, IfSome, IfNone, IfOk, IfErr, IsNone};
ghost use Rattle.fan_record.specs.Infos.{AreInfos};
ghost use Rattle.fan_fid.specs.Infos.{NoInfo, SpellsInfo, info_end, parts_of};

use super::info::Info;
use super::parts::info_of;
use fan_record::{BadRecord, info_len};
use std::marker::Model;

/// Reads information records one after the other. Contracts see its input, which is a part of a
/// record, and the place where the next one is to begin, which is the input's end once one was bad.
#[derive(Debug, Drop)]
pub struct Infos<'a> {
    bytes: &'a [u8],
    at: usize,
}

impl<'a> Model for Infos<'a> {
    ghost use Rattle.std.specs.Prelude.{◌≤◌, length};
    ghost use Rattle.fan_record.specs.Records.{Reading};

    ghost Value = { Reading };

    ghost view = { λ r. record { bytes = r.bytes.now; at = r.at } };

    ghost invariant = { λ r. r.at ≤ length r.bytes.now };
}

impl<'a> Infos<'a> {
    /// A reader of these bytes, from their start on.
    pub fn new(bytes: &'a [u8]) -> Infos<'a>
        ensures { result ≡ record { bytes = bytes.now; at = 0 } }
    {
        Infos { bytes, at: 0 }
    }

    /// The next information record, with the parts of the input that it names.
    /// None at the end of the input, and after one that was bad.
    ///
    /// # Errors
    /// `BadRecord` if no information record stands at this place: its header of 4 bytes, as many bytes
    /// as it says, its handle (types 1 to 3) or the 0 behind its name (type 2) is missing. The place is
    /// counted from the start of the part.
    pub fn next(&mut self) -> Option<Result<Info<'a>, BadRecord>>
        ensures input { self.new.bytes ≡ self.old.bytes }
        ensures found { IfSome result (λ answer. IfOk answer (λ info.
            SpellsInfo self.old.bytes self.old.at (parts_of info))) }
        ensures after { IfSome result (λ answer. IfOk answer (λ info.
            self.new.at ≡ info_end self.old.bytes self.old.at)) }
        ensures filled { IfSome result (λ answer. IfOk answer (λ info.
            AreInfos (drop self.old.at self.old.bytes)
            ↔ AreInfos (drop self.new.at self.old.bytes))) }
        ensures bad { IfSome result (λ answer. IfErr answer (λ bad. bad.at ≡ self.old.at)) }
        ensures nothing { IfSome result (λ answer. IfErr answer (λ bad.
            NoInfo self.old.bytes self.old.at)) }
        ensures broken { IfSome result (λ answer. IfErr answer (λ bad.
            AreInfos (drop self.old.at self.old.bytes) → ⊥)) }
        ensures stops { IfSome result (λ answer. IfErr answer (λ bad.
            self.new.at ≡ length self.old.bytes)) }
        ensures end { IsNone result ↔ self.old.at ≡ length self.old.bytes }
        ensures stays { IsNone result → self.new ≡ self.old }
    {
        if self.at == self.bytes.len() {
            return None;
        }
        let at = self.at;
        match info_at(self.bytes, at) {
            Some((info, end)) => {
                self.at = end;
                Some(Ok(info))
            }
            None => {
                self.at = self.bytes.len();
                Some(Err(BadRecord { at }))
            }
        }
    }
}

// The information record at a place, and where it ends.
fn info_at<'a>(bytes: &'a [u8], at: usize) -> Option<(Info<'a>, usize)>
    requires { at ≤ length bytes.now }
    ensures found { IfSome result (λ found. SpellsInfo bytes.now at (parts_of found.0)) }
    ensures end { IfSome result (λ found. found.1 ≡ info_end bytes.now at) }
    ensures within { IfSome result (λ found. found.1 ≤ length bytes.now) }
    ensures filled { IfSome result (λ found.
        AreInfos (drop at bytes.now) ↔ AreInfos (drop found.1 bytes.now)) }
    ensures none { IfNone result (NoInfo bytes.now at) }
    ensures broken { IfNone result (AreInfos (drop at bytes.now) → at ≡ length bytes.now) }
{
    let rest = &bytes[at..];
    let len = info_len(rest)?;
    Some((info_of(&rest[..len]), at + len))
}
