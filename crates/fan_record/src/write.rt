// Records as they are written.
ghost use Rattle.std.specs.Prelude.{◌≡◌, ◌++◌, OnOk, OnErr};
ghost use Rattle.fan_record.specs.Written.{record_bytes};

use byteorder::{ByteOrder, LittleEndian};
use fan_io::NoMemory;

// FANOTIFY_METADATA_VERSION.
const VERSION: u8 = 3;

// The length of `struct fanotify_event_metadata`.
const METADATA_LEN: u16 = 24;

/// Puts a record at the end of `out`, without its information records: those follow it, and
/// `event_len` counts them too (24 with none). `fd` is -1 where there is none, `pid` 0 to 2^31 - 1.
/// Source: fanotify(7), `struct fanotify_event_metadata`.
///
/// # Errors
/// `NoMemory` if no memory was found. `out` stays as it was.
#[tactic(auto, unfolding(crate::specs::Written::record_bytes))]
pub fn write_record(
    out: &mut Vec<u8>,
    event_len: u32,
    mask: u64,
    fd: i32,
    pid: u32,
) -> Result<(), NoMemory>
    ensures ok { OnOk result (out.new.items
        ≡ out.old.items ++ record_bytes event_len mask fd pid) }
    ensures err { OnErr result (out.new.items ≡ out.old.items) }
{
    let mut metadata = [0; 24];
    LittleEndian::write_u32(&mut metadata, event_len);
    metadata[4] = VERSION;
    LittleEndian::write_u16(&mut metadata[6..], METADATA_LEN);
    LittleEndian::write_u64(&mut metadata[8..], mask);
    LittleEndian::write_i32(&mut metadata[16..], fd);
    LittleEndian::write_u32(&mut metadata[20..], pid);
    out.extend_from_slice(&metadata)?;
    Ok(())
}
