// Information records as they are written and read, on good and on hostile bytes. What is expected was
// computed by hand from the layout of docs/FORMATS.md.
ghost use Rattle.fan_event.specs.Names.{IsName};

use fan_event::{Name, Target};
use fan_fid::{
    Ident, Info, Infos, events_are_read_again, infos_are_read_again, infos_fill_a_record,
    infos_len, one_info_at_most, one_reading_of_infos, write_infos,
};
use fan_io::NoMemory;
use fan_record::BadRecord;
use std::alloc::{AllocError, Global};
use std::test::Fail;

// Three information records: the entry `a.b` of the directory with inode 2 (DFID_NAME), the file with
// inode 7 (FID), both of filesystem 1, and one of type 5.
const TEXT: [u8; 66] = [
    2, 0, 32, 0, 1, 0, 0, 0, 0, 0, 0, 0, 8, 0, 0, 0, 1, 0, 0, 0, 2, 0, 0, 0, 0, 0, 0, 0, b'a',
    b'.', b'b', 0, 1, 0, 28, 0, 1, 0, 0, 0, 0, 0, 0, 0, 8, 0, 0, 0, 1, 0, 0, 0, 7, 0, 0, 0, 0, 0,
    0, 0, 5, 0, 6, 0, 1, 2,
];

// The text with other bytes at some places, cut to a length: how many information records are read, and
// where a bad one stands then. They begin at 0, 32 and 60.
type Row = (
    &'static [(usize, &'static [u8])],
    usize,
    usize,
    Option<usize>,
);

const ROWS: [Row; 67] = [
    // All of it, and cut off.
    (&[], 66, 3, None),
    (&[], 0, 0, None),
    (&[], 1, 0, Some(0)),
    (&[], 3, 0, Some(0)),
    (&[], 4, 0, Some(0)),
    (&[], 31, 0, Some(0)),
    (&[], 32, 1, None),
    (&[], 33, 1, Some(32)),
    (&[], 35, 1, Some(32)),
    (&[], 36, 1, Some(32)),
    (&[], 59, 1, Some(32)),
    (&[], 60, 2, None),
    (&[], 61, 2, Some(60)),
    (&[], 63, 2, Some(60)),
    (&[], 64, 2, Some(60)),
    (&[], 65, 2, Some(60)),
    // info_type and pad of the first.
    (&[(0, &[0])], 66, 3, None),
    (&[(0, &[1])], 66, 3, None),
    (&[(0, &[3])], 66, 3, None),
    (&[(0, &[4])], 66, 3, None),
    (&[(0, &[255])], 66, 3, None),
    (&[(1, &[255])], 66, 3, None),
    // len of the first: at 33 the next has a len of 256.
    (&[(2, &[0, 0])], 66, 0, Some(0)),
    (&[(2, &[1, 0])], 66, 0, Some(0)),
    (&[(2, &[3, 0])], 66, 0, Some(0)),
    (&[(2, &[4, 0])], 66, 0, Some(0)),
    (&[(2, &[19, 0])], 66, 0, Some(0)),
    (&[(2, &[20, 0])], 66, 0, Some(0)),
    (&[(2, &[27, 0])], 66, 0, Some(0)),
    (&[(2, &[28, 0])], 66, 0, Some(0)),
    (&[(2, &[31, 0])], 66, 0, Some(0)),
    (&[(2, &[33, 0])], 66, 1, Some(33)),
    (&[(2, &[66, 0])], 66, 1, None),
    (&[(2, &[67, 0])], 66, 0, Some(0)),
    (&[(2, &[0, 32])], 66, 0, Some(0)),
    (&[(2, &[255, 255])], 66, 0, Some(0)),
    // handle_bytes of the first: a 0 has to stand behind the handle.
    (&[(12, &[0, 0, 0, 0])], 66, 3, None),
    (&[(12, &[1, 0, 0, 0])], 66, 3, None),
    (&[(12, &[7, 0, 0, 0])], 66, 3, None),
    (&[(12, &[9, 0, 0, 0])], 66, 3, None),
    (&[(12, &[11, 0, 0, 0])], 66, 3, None),
    (&[(12, &[12, 0, 0, 0])], 66, 0, Some(0)),
    (&[(12, &[13, 0, 0, 0])], 66, 0, Some(0)),
    (&[(12, &[255, 255, 0, 0])], 66, 0, Some(0)),
    (&[(12, &[255, 255, 255, 255])], 66, 0, Some(0)),
    (&[(12, &[236, 255, 255, 255])], 66, 0, Some(0)),
    // handle_type of the first, and its name.
    (&[(16, &[255, 255, 255, 255])], 66, 3, None),
    (&[(28, &[0])], 66, 3, None),
    (&[(29, &[0])], 66, 3, None),
    (&[(31, &[1])], 66, 0, Some(0)),
    // The second: what stands behind its handle isn't looked at. At 61 the next has a len of 256.
    (&[(32, &[2])], 66, 1, Some(32)),
    (&[(32, &[3])], 66, 3, None),
    (&[(34, &[0, 0])], 66, 1, Some(32)),
    (&[(34, &[27, 0])], 66, 1, Some(32)),
    (&[(34, &[29, 0])], 66, 2, Some(61)),
    (&[(34, &[34, 0])], 66, 2, None),
    (&[(34, &[35, 0])], 66, 1, Some(32)),
    (&[(44, &[0, 0, 0, 0])], 66, 3, None),
    (&[(44, &[9, 0, 0, 0])], 66, 1, Some(32)),
    (&[(44, &[255, 255, 255, 255])], 66, 1, Some(32)),
    // The last: 1 or 2 bytes left over, one too many, and a type that wants a handle.
    (&[(62, &[3, 0])], 66, 2, Some(60)),
    (&[(62, &[4, 0])], 66, 3, Some(64)),
    (&[(62, &[5, 0])], 66, 3, Some(65)),
    (&[(62, &[7, 0])], 66, 2, Some(60)),
    (&[(60, &[1])], 66, 2, Some(60)),
    (&[(60, &[2])], 66, 2, Some(60)),
    (&[(60, &[3])], 66, 2, Some(60)),
];

// Other bytes from a place on.
fn put(text: &mut Vec<u8>, place: usize, bytes: &[u8]) {
    for (index, byte) in bytes.iter().enumerate() {
        if let Some(there) = text.get_mut(place.saturating_add(index)) {
            *there = *byte;
        }
    }
}

// The text with other bytes at some places, cut to a length.
fn changed(
    alloc: Global,
    puts: &[(usize, &'static [u8])],
    len: usize,
) -> Result<Vec<u8>, AllocError> {
    let mut text = Vec::from_slice(alloc, &TEXT)?;
    for (place, bytes) in puts {
        put(&mut text, *place, bytes);
    }
    text.truncate(len);
    Ok(text)
}

// How many information records are read, and where a bad one stands then.
fn counted(text: &[u8]) -> (usize, Option<usize>) {
    let mut infos = Infos::new(text);
    let mut good = 0usize;
    for _ in 0..text.len() {
        match infos.next() {
            Some(Ok(_)) => good = good.saturating_add(1),
            Some(Err(bad)) => return (good, Some(bad.at)),
            None => return (good, None),
        }
    }
    (good, None)
}

#[test]
fn hostile_bytes_are_refused_at_their_place(rt: HostRuntime) -> Result<(), Fail> {
    for (puts, len, good, bad) in ROWS {
        let text = changed(rt.alloc(), puts, len)?;
        assert_eq!(rt; counted(&text), (good, bad));
    }
    Ok(())
}

// A file or directory of filesystem 1 whose handle stands here.
fn ident(handle: &'static [u8]) -> Ident<'static> {
    Ident {
        fsid: &TEXT[4..12],
        handle_type: 1,
        handle,
    }
}

#[test]
fn the_parts_of_information_records_are_those_of_their_bytes(rt: HostRuntime) -> Result<(), Fail> {
    let mut infos = Infos::new(&TEXT);
    let name = Info::DfidName(ident(&TEXT[20..28]), b"a.b");
    let file = Info::Fid(ident(&TEXT[52..60]));
    let other = Info::Other(5, &[1, 2]);
    assert_eq!(rt; infos.next(), Some(Ok(name)));
    assert_eq!(rt; infos.next(), Some(Ok(file)));
    assert_eq!(rt; infos.next(), Some(Ok(other)));
    assert_eq!(rt; infos.next(), None);
    Ok(())
}

#[test]
fn nothing_comes_after_a_bad_information_record(rt: HostRuntime) -> Result<(), Fail> {
    let mut infos = Infos::new(&TEXT[..31]);
    assert_eq!(rt; infos.next(), Some(Err(BadRecord { at: 0 })));
    assert_eq!(rt; infos.next(), None);
    assert_eq!(rt; infos.next(), None);
    Ok(())
}

// The directory with inode 2 of filesystem 1, an entry in it, and an object.
fn target(alloc: Global, name: &[u8], object: Option<u32>) -> Result<Target, NoMemory>
    requires { IsName name.now }
{
    Ok(Target::Handle {
        fs: 1,
        object,
        dir: Some(2),
        name: Some(Name::of(alloc, name)?),
    })
}

#[test]
fn objects_are_written_byte_by_byte(rt: HostRuntime) -> Result<(), Fail> {
    let mut out = Vec::new(rt.alloc());
    let named = target(rt.alloc(), b"a.b", Some(7))?;
    write_infos(&mut out, &named)?;
    assert_eq!(rt; out.as_slice(), &TEXT[..60]);
    assert_eq!(rt; infos_len(&named), 60);
    Ok(())
}

// The directory with inode 2 of filesystem 1 (DFID).
const DIR: [u8; 28] = [
    3, 0, 28, 0, 1, 0, 0, 0, 0, 0, 0, 0, 8, 0, 0, 0, 1, 0, 0, 0, 2, 0, 0, 0, 0, 0, 0, 0,
];

#[test]
fn a_directory_without_a_name_is_written_byte_by_byte(rt: HostRuntime) -> Result<(), Fail> {
    let target = Target::Handle {
        fs: 1,
        object: None,
        dir: Some(2),
        name: None,
    };
    let mut out = Vec::new(rt.alloc());
    write_infos(&mut out, &target)?;
    assert_eq!(rt; out.as_slice(), DIR.as_slice());
    Ok(())
}

// The entry `abcd` of that directory: a 0 ends it, and three more pad it.
const PADDED: [u8; 36] = [
    2, 0, 36, 0, 1, 0, 0, 0, 0, 0, 0, 0, 8, 0, 0, 0, 1, 0, 0, 0, 2, 0, 0, 0, 0, 0, 0, 0, b'a',
    b'b', b'c', b'd', 0, 0, 0, 0,
];

#[test]
fn names_are_padded_to_a_multiple_of_four(rt: HostRuntime) -> Result<(), Fail> {
    let short = target(rt.alloc(), b"abc", None)?;
    assert_eq!(rt; infos_len(&short), 32);
    let long = target(rt.alloc(), b"abcd", None)?;
    assert_eq!(rt; infos_len(&long), 36);
    let mut out = Vec::new(rt.alloc());
    write_infos(&mut out, &long)?;
    assert_eq!(rt; out.as_slice(), PADDED.as_slice());
    Ok(())
}

#[test]
fn an_object_told_by_a_descriptor_has_no_information_record(rt: HostRuntime) -> Result<(), Fail> {
    let target = Target::Fd { mount: 3, inode: 7 };
    let mut out = Vec::new(rt.alloc());
    write_infos(&mut out, &target)?;
    assert!(rt; out.is_empty());
    assert_eq!(rt; infos_len(&target), 0);
    one_info_at_most();
    one_reading_of_infos();
    infos_are_read_again();
    infos_fill_a_record();
    events_are_read_again();
    Ok(())
}
