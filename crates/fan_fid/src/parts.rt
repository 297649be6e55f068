// The parts of one information record.
ghost use Rattle.std.specs.Prelude.{◌≡◌, ◌==◌, ◌≤◌, length, drop, Contains, IfNone, position};
ghost use Rattle.fan_record.specs.Infos.{IsInfo, handle_end};
ghost use Rattle.fan_fid.specs.Infos.{SpellsIdent, SpellsName, SpellsParts, ident_of, parts_of};

use super::info::{Ident, Info};
use byteorder::{ByteOrder, LittleEndian};
use fan_record::handle_end;

// FAN_EVENT_INFO_TYPE_FID.
pub(crate) const FID: u8 = 1;

// FAN_EVENT_INFO_TYPE_DFID_NAME.
pub(crate) const DFID_NAME: u8 = 2;

// FAN_EVENT_INFO_TYPE_DFID.
pub(crate) const DFID: u8 = 3;

// Where the handle ends, which is whole.
fn end_of(info: &[u8]) -> usize
    requires { handle_end info.now ≤ length info.now }
    ensures { result ≡ handle_end info.now }
{
    let Some(end) = handle_end(info) else {
        unreachable!();
    };
    end
}

// The file or directory of an information record.
fn ident_of<'a>(info: &'a [u8]) -> Ident<'a>
    requires { handle_end info.now ≤ length info.now }
    ensures { SpellsIdent info.now (ident_of result) }
{
    let end = end_of(info);
    Ident {
        fsid: &info[4..12],
        handle_type: LittleEndian::read_i32(&info[16..]),
        handle: &info[20..end],
    }
}

// Where the first 0 stands.
fn first_zero(text: &[u8]) -> Option<usize>
    ensures value { result ≡ position (λ byte. byte == 0) text.now }
    ensures none { IfNone result (Contains text.now 0 → ⊥) }
{
    text.iter().position(|byte| *byte == 0)
}

// The bytes before the first 0.
fn name_of<'a>(text: &'a [u8]) -> &'a [u8]
    requires { Contains text.now 0 }
    ensures { SpellsName text.now result.now }
{
    let Some(end) = first_zero(text) else {
        unreachable!();
    };
    &text[..end]
}

// What an information record says.
pub(crate) fn info_of<'a>(info: &'a [u8]) -> Info<'a>
    requires { IsInfo info.now }
    ensures { SpellsParts info.now (parts_of result) }
{
    match info[0] {
        FID => Info::Fid(ident_of(info)),
        DFID => Info::Dfid(ident_of(info)),
        DFID_NAME => Info::DfidName(ident_of(info), name_of(&info[end_of(info)..])),
        kind => Info::Other(kind, &info[4..]),
    }
}
