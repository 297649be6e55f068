// Information records as they are written.
ghost use Rattle.std.specs.Prelude.{◌≡◌, ◌≤◌, ◌<◌, ◌^◌, ◌+◌, ◌++◌, ℕ, length, replicate, OnOk, OnErr, vec_len, vec_capacity};
ghost use Rattle.fan_event.specs.Names.{IsName};
ghost use Rattle.fan_fid.specs.Written.{dfid_name_bytes, dir_bytes, ident_bytes, infos_of, name_bytes, object_bytes, padding};

use super::parts::{DFID, DFID_NAME, FID};
use byteorder::{ByteOrder, LittleEndian};
use fan_event::{Name, Target};
use fan_io::NoMemory;

// The length of an information record up to its handle's end.
const IDENT_LEN: u16 = 28;

// The length of a handle.
const HANDLE_BYTES: u32 = 8;

// The type of each handle.
const HANDLE_TYPE: u32 = 1;

// An information record up to its handle's end.
#[tactic(auto, unfolding(crate::specs::Written::ident_bytes))]
fn ident_bytes(kind: u8, len: u16, fs: u32, inode: u32) -> [u8; 28]
    ensures { result ≡ ident_bytes kind len fs inode }
{
    let mut bytes = [0; 28];
    bytes[0] = kind;
    LittleEndian::write_u16(&mut bytes[2..], len);
    LittleEndian::write_u32(&mut bytes[4..], fs);
    LittleEndian::write_u32(&mut bytes[12..], HANDLE_BYTES);
    LittleEndian::write_u32(&mut bytes[16..], HANDLE_TYPE);
    LittleEndian::write_u32(&mut bytes[20..], inode);
    bytes
}

// How many zeros come up to the next multiple of four.
fn padding(len: usize) -> usize
    ensures value { result ≡ padding len }
    ensures small { result < 4 }
{
    (4 - len % 4) % 4
}

// How many bytes a name has with the zeros behind it.
fn name_len(name: &[u8]) -> u16
    requires { IsName name.now }
    ensures value { result ≡ length (name_bytes name.now) }
    ensures small { result ≤ 256 }
{
    let end = name.len() + 1;
    (end + padding(end)) as u16
}

// How many bytes tell of a directory.
#[tactic(auto, using(crate::proofs::WrittenLemmas::ident_len))]
fn dir_len(dir: &Option<u32>, name: &Option<Name>) -> u32
    ensures value { (fs : ℕ) → result ≡ length (dir_bytes fs dir.now name.now) }
    ensures small { result ≤ 284 }
{
    let Some(_) = dir else {
        return 0;
    };
    match name {
        Some(name) => u32::from(IDENT_LEN + name_len(name.bytes())),
        None => u32::from(IDENT_LEN),
    }
}

// How many bytes tell of an object.
#[tactic(auto, using(crate::proofs::WrittenLemmas::ident_len))]
fn object_len(object: &Option<u32>) -> u32
    ensures value { (fs : ℕ) → result ≡ length (object_bytes fs object.now) }
    ensures small { result ≤ 28 }
{
    match object {
        Some(_) => u32::from(IDENT_LEN),
        None => 0,
    }
}

/// How many bytes [`write_infos`] puts for this object: 0 to 312, a multiple of 4.
pub fn infos_len(target: &Target) -> u32
    ensures value { result ≡ length (infos_of target.now) }
    ensures most { result ≤ 312 }
{
    match target {
        Target::Fd { .. } => 0,
        Target::Handle {
            object,
            dir,
            name,
            ..
        } => dir_len(dir, name) + object_len(object),
    }
}

// Puts bytes at the end, for which there is room.
fn put(out: &mut Vec<u8>, bytes: &[u8])
    requires { vec_len out.old + length bytes.now ≤ vec_capacity out.old }
    ensures items { out.new.items ≡ out.old.items ++ bytes.now }
    ensures len { vec_len out.new ≡ vec_len out.old + length bytes.now }
    ensures capacity { vec_capacity out.old ≤ vec_capacity out.new }
{
    out.extend_from_slice(bytes).unwrap();
}

// Puts a name at the end with the zeros behind it.
fn put_name(out: &mut Vec<u8>, name: &[u8])
    requires short { length name.now ≤ 255 }
    requires room { vec_len out.old + length (name_bytes name.now) ≤ vec_capacity out.old }
    ensures items { out.new.items ≡ out.old.items ++ name_bytes name.now }
    ensures len { vec_len out.new ≡ vec_len out.old + length (name_bytes name.now) }
    ensures capacity { vec_capacity out.old ≤ vec_capacity out.new }
{
    let padding = padding(name.len() + 1);
    put(out, name);
    put(out, &[0]);
    put(out, &[0; 3][..padding]);
}

// Puts a directory with a name at the end.
#[tactic(auto, using(crate::proofs::WrittenLemmas::ident_len))]
fn put_named(out: &mut Vec<u8>, fs: u32, dir: u32, name: &[u8])
    requires name { IsName name.now }
    requires room { vec_len out.old + length (dfid_name_bytes fs dir name.now)
        ≤ vec_capacity out.old }
    ensures items { out.new.items ≡ out.old.items ++ dfid_name_bytes fs dir name.now }
    ensures len { vec_len out.new ≡ vec_len out.old + length (dfid_name_bytes fs dir name.now) }
    ensures capacity { vec_capacity out.old ≤ vec_capacity out.new }
{
    let len = IDENT_LEN + name_len(name);
    put(out, &ident_bytes(DFID_NAME, len, fs, dir));
    put_name(out, name);
}

// Puts what tells of a directory at the end.
#[tactic(auto, using(crate::proofs::WrittenLemmas::ident_len))]
fn put_dir(out: &mut Vec<u8>, fs: u32, dir: &Option<u32>, name: &Option<Name>)
    requires { vec_len out.old + length (dir_bytes fs dir.now name.now) ≤ vec_capacity out.old }
    ensures items { out.new.items ≡ out.old.items ++ dir_bytes fs dir.now name.now }
    ensures len { vec_len out.new
        ≡ vec_len out.old + length (dir_bytes fs dir.now name.now) }
    ensures capacity { vec_capacity out.old ≤ vec_capacity out.new }
{
    let Some(dir) = dir else {
        return;
    };
    match name {
        Some(name) => put_named(out, fs, *dir, name.bytes()),
        None => put(out, &ident_bytes(DFID, IDENT_LEN, fs, *dir)),
    }
}

// Puts what tells of an object at the end.
#[tactic(auto, using(crate::proofs::WrittenLemmas::ident_len))]
fn put_object(out: &mut Vec<u8>, fs: u32, object: &Option<u32>)
    requires { vec_len out.old + length (object_bytes fs object.now) ≤ vec_capacity out.old }
    ensures { out.new.items ≡ out.old.items ++ object_bytes fs object.now }
{
    if let Some(object) = object {
        put(out, &ident_bytes(FID, IDENT_LEN, fs, *object));
    }
}

/// Puts the information records of an event's object at the end of `out`: of its directory, with the
/// name where there is one, and then of the object itself; none for an object that is told by a
/// descriptor. Sources: fanotify(7), `struct fanotify_event_info_fid`; open_by_handle_at(2).
///
/// # Errors
/// `NoMemory` if no memory was found. `out` stays as it was.
pub fn write_infos(out: &mut Vec<u8>, target: &Target) -> Result<(), NoMemory>
    ensures ok { OnOk result (out.new.items ≡ out.old.items ++ infos_of target.now) }
    ensures err { OnErr result (out.new.items ≡ out.old.items) }
{
    out.reserve(infos_len(target) as usize)?;
    if let Target::Handle {
        fs,
        object,
        dir,
        name,
    } = target
    {
        put_dir(out, *fs, dir, name);
        put_object(out, *fs, object);
    }
    Ok(())
}
