// The lines of a record and of the information records behind it.
ghost use Rattle.std.specs.Prelude.{◌≡◌, ◌++◌, OnOk};
ghost use Rattle.fan_dump.specs.Texts.{event_text, ident_text, info_text};
ghost use Rattle.fan_dump.specs.Printed.{PutsInfos, PutsEvent};
ghost use Rattle.fan_fid.specs.Infos.{ident_of, parts_of};
ghost use Rattle.fan_record.specs.Infos.{AreInfos};
ghost use Rattle.fan_record.specs.Records.{parts_of as record_parts};

use super::numbers::{print_bytes, print_hex, print_signed};
use fan_fid::{Ident, Info, Infos};
use fan_io::NoMemory;
use fan_print::{print_decimal, print_text};
use fan_record::Record;
use std::alloc::Global;

// Puts a file or directory at the end.
#[tactic(auto, using(std::proofs::Common::append_assoc), unfolding(crate::specs::Texts::ident_text))]
fn print_ident(out: &mut Vec<u8>, ident: &Ident) -> Result<(), NoMemory>
    ensures { OnOk result (out.new.items ≡ out.old.items ++ ident_text (ident_of ident.now)) }
{
    print_text(out, "fsid ")?;
    print_bytes(out, ident.fsid)?;
    print_text(out, " type ")?;
    print_signed(out, ident.handle_type)?;
    print_text(out, " handle ")?;
    print_bytes(out, ident.handle)
}

// Puts the line of an information record at the end.
#[tactic(auto, using(std::proofs::Common::append_assoc), unfolding(crate::specs::Texts::info_text))]
fn print_info(out: &mut Vec<u8>, info: &Info) -> Result<(), NoMemory>
    ensures { OnOk result (out.new.items ≡ out.old.items ++ info_text (parts_of info.now)) }
{
    match info {
        Info::Fid(object) => {
            print_text(out, "fid ")?;
            print_ident(out, object)?;
        }
        Info::Dfid(dir) => {
            print_text(out, "dfid ")?;
            print_ident(out, dir)?;
        }
        Info::DfidName(dir, name) => {
            print_text(out, "dfid_name ")?;
            print_ident(out, dir)?;
            print_text(out, " name ")?;
            print_bytes(out, name)?;
        }
        Info::Other(kind, bytes) => {
            print_text(out, "info ")?;
            print_decimal(out, u64::from(*kind))?;
            print_text(out, " ")?;
            print_bytes(out, bytes)?;
        }
    }
    print_text(out, "\n")
}

// Puts the lines of the information records at the end that fill a part of a record.
fn print_infos(out: &mut Vec<u8>, part: &[u8]) -> Result<(), NoMemory>
    requires { AreInfos part.now }
    ensures { OnOk result (PutsInfos part.now out.old.items out.new.items) }
{
    let mut infos = Infos::new(part);
    while let Some(answer) = infos.next() {
        let Ok(info) = answer else {
            unreachable!();
        };
        print_info(out, &info)?;
    }
    Ok(())
}

// Puts the line of a record at the end.
#[tactic(auto, using(std::proofs::Common::append_assoc), unfolding(crate::specs::Texts::event_text))]
fn print_metadata(alloc: Global, out: &mut Vec<u8>, event: &Record) -> Result<(), NoMemory>
    ensures { OnOk result (out.new.items ≡ out.old.items ++ event_text (record_parts event.now)) }
{
    print_text(out, "event ")?;
    print_hex(alloc, out, event.mask)?;
    print_text(out, " fd ")?;
    print_signed(out, event.fd)?;
    print_text(out, " pid ")?;
    print_signed(out, event.pid)?;
    print_text(out, "\n")
}

/// Puts the line of a record at the end, and one for each information record behind it.
///
/// # Errors
/// `NoMemory` if no memory is found; a front of the text may then stand at the end.
pub fn print_event(alloc: Global, out: &mut Vec<u8>, event: &Record) -> Result<(), NoMemory>
    requires { AreInfos event.now.infos.now }
    ensures { OnOk result (PutsEvent (record_parts event.now) out.old.items out.new.items) }
{
    print_metadata(alloc, out, event)?;
    print_infos(out, event.infos)
}
