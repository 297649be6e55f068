// Records as they are written and read, on good and on hostile bytes. What is expected was computed by
// hand from the layout of docs/FORMATS.md.
use fan_record::{
    BadRecord, Record, Records, handle_end, info_len, one_reading_of_records, one_record_at_most,
    records_are_read_again, write_record,
};
use std::alloc::{AllocError, Global};
use std::test::Fail;

// FAN_OPEN of process 41 under descriptor 5: no information records.
const FIRST: [u8; 24] = [
    24, 0, 0, 0, 3, 0, 24, 0, 0x20, 0, 0, 0, 0, 0, 0, 0, 5, 0, 0, 0, 41, 0, 0, 0,
];

// FAN_CREATE of process 42 without a descriptor, and 28 bytes for it: a FID record of filesystem 1,
// inode 7.
const SECOND: [u8; 52] = [
    52, 0, 0, 0, 3, 0, 24, 0, 0, 1, 0, 0, 0, 0, 0, 0, 255, 255, 255, 255, 42, 0, 0, 0, 1, 0, 28, 0,
    1, 0, 0, 0, 0, 0, 0, 0, 8, 0, 0, 0, 1, 0, 0, 0, 7, 0, 0, 0, 0, 0, 0, 0,
];

// The two records with other bytes at some places, cut to a length: how many records are read, and
// where a bad one stands then. The second record begins at 24, its information record at 48.
type Row = (
    &'static [(usize, &'static [u8])],
    usize,
    usize,
    Option<usize>,
);

const ROWS: [Row; 68] = [
    // All of it, and cut off.
    (&[], 76, 2, None),
    (&[], 0, 0, None),
    (&[], 1, 0, Some(0)),
    (&[], 23, 0, Some(0)),
    (&[], 24, 1, None),
    (&[], 25, 1, Some(24)),
    (&[], 28, 1, Some(24)),
    (&[], 47, 1, Some(24)),
    (&[], 48, 1, Some(24)),
    (&[], 75, 1, Some(24)),
    // event_len of the first.
    (&[(0, &[0, 0, 0, 0])], 76, 0, Some(0)),
    (&[(0, &[1, 0, 0, 0])], 76, 0, Some(0)),
    (&[(0, &[23, 0, 0, 0])], 76, 0, Some(0)),
    (&[(0, &[25, 0, 0, 0])], 76, 0, Some(0)),
    (&[(0, &[27, 0, 0, 0])], 76, 0, Some(0)),
    (&[(0, &[28, 0, 0, 0])], 76, 0, Some(0)),
    (&[(0, &[76, 0, 0, 0])], 76, 0, Some(0)),
    (&[(0, &[77, 0, 0, 0])], 76, 0, Some(0)),
    (&[(0, &[255, 255, 0, 0])], 76, 0, Some(0)),
    (&[(0, &[255, 255, 255, 255])], 76, 0, Some(0)),
    (&[(0, &[24, 0, 0, 128])], 76, 0, Some(0)),
    (&[(0, &[0, 0, 0, 24])], 76, 0, Some(0)),
    // vers and the reserved byte of the first.
    (&[(4, &[0])], 76, 0, Some(0)),
    (&[(4, &[2])], 76, 0, Some(0)),
    (&[(4, &[4])], 76, 0, Some(0)),
    (&[(4, &[255])], 76, 0, Some(0)),
    (&[(5, &[1])], 76, 2, None),
    (&[(5, &[255])], 76, 2, None),
    // metadata_len of the first.
    (&[(6, &[0, 0])], 76, 0, Some(0)),
    (&[(6, &[1, 0])], 76, 0, Some(0)),
    (&[(6, &[23, 0])], 76, 0, Some(0)),
    (&[(6, &[25, 0])], 76, 0, Some(0)),
    (&[(6, &[255, 255])], 76, 0, Some(0)),
    (&[(6, &[0, 24])], 76, 0, Some(0)),
    // mask, fd and pid may be any.
    (
        &[(8, &[255, 255, 255, 255, 255, 255, 255, 255])],
        76,
        2,
        None,
    ),
    (&[(16, &[0, 0, 0, 128, 255, 255, 255, 255])], 76, 2, None),
    // event_len of the second: 24 leaves its information record behind it.
    (&[(24, &[0, 0, 0, 0])], 76, 1, Some(24)),
    (&[(24, &[24, 0, 0, 0])], 76, 2, Some(48)),
    (&[(24, &[51, 0, 0, 0])], 76, 1, Some(24)),
    (&[(24, &[53, 0, 0, 0])], 76, 1, Some(24)),
    (&[(28, &[2])], 76, 1, Some(24)),
    (&[(30, &[28, 0])], 76, 1, Some(24)),
    // info_type: 2 wants a 0 behind the handle; 0 and those from 4 on are taken as they are.
    (&[(48, &[2])], 76, 1, Some(24)),
    (&[(48, &[3])], 76, 2, None),
    (&[(48, &[0])], 76, 2, None),
    (&[(48, &[4])], 76, 2, None),
    (&[(48, &[255])], 76, 2, None),
    (&[(49, &[9])], 76, 2, None),
    // len of the information record.
    (&[(50, &[0, 0])], 76, 1, Some(24)),
    (&[(50, &[1, 0])], 76, 1, Some(24)),
    (&[(50, &[3, 0])], 76, 1, Some(24)),
    (&[(50, &[4, 0])], 76, 1, Some(24)),
    (&[(50, &[20, 0])], 76, 1, Some(24)),
    (&[(50, &[27, 0])], 76, 1, Some(24)),
    (&[(50, &[29, 0])], 76, 1, Some(24)),
    (&[(50, &[255, 255])], 76, 1, Some(24)),
    // An information record of another type that leaves 3, 2, 1 or 4 bytes over.
    (&[(48, &[9, 0, 25, 0])], 76, 1, Some(24)),
    (&[(48, &[9, 0, 26, 0])], 76, 1, Some(24)),
    (&[(48, &[9, 0, 27, 0])], 76, 1, Some(24)),
    (&[(48, &[9, 0, 24, 0])], 76, 1, Some(24)),
    // The 4 bytes that are left are an information record of its own.
    (&[(48, &[9, 0, 24, 0]), (72, &[9, 0, 4, 0])], 76, 2, None),
    // handle_bytes.
    (&[(60, &[0, 0, 0, 0])], 76, 2, None),
    (&[(60, &[7, 0, 0, 0])], 76, 2, None),
    (&[(60, &[9, 0, 0, 0])], 76, 1, Some(24)),
    (&[(60, &[255, 255, 0, 0])], 76, 1, Some(24)),
    (&[(60, &[255, 255, 255, 255])], 76, 1, Some(24)),
    // A DFID_NAME whose name of no bytes ends with the last byte, and one without a 0 behind it.
    (&[(48, &[2]), (60, &[7])], 76, 2, None),
    (&[(48, &[2]), (60, &[7]), (75, &[1])], 76, 1, Some(24)),
];

// The two records.
fn both(alloc: Global) -> Result<Vec<u8>, AllocError> {
    let mut text = Vec::from_slice(alloc, &FIRST)?;
    text.extend_from_slice(&SECOND)?;
    Ok(text)
}

// Other bytes from a place on.
fn put(text: &mut Vec<u8>, place: usize, bytes: &[u8]) {
    for (index, byte) in bytes.iter().enumerate() {
        if let Some(there) = text.get_mut(place.saturating_add(index)) {
            *there = *byte;
        }
    }
}

// The two records with other bytes at some places, cut to a length.
fn changed(
    alloc: Global,
    puts: &[(usize, &'static [u8])],
    len: usize,
) -> Result<Vec<u8>, AllocError> {
    let mut text = both(alloc)?;
    for (place, bytes) in puts {
        put(&mut text, *place, bytes);
    }
    text.truncate(len);
    Ok(text)
}

// How many records are read, and where a bad one stands then. Nothing is read behind it.
fn counted(text: &[u8]) -> (usize, Option<usize>) {
    let mut records = Records::new(text);
    let mut good = 0usize;
    for _ in 0..text.len() {
        match records.next() {
            Some(Ok(_)) => good = good.saturating_add(1),
            Some(Err(bad)) => return (good, Some(bad.at)),
            None => return (good, None),
        }
    }
    (good, None)
}

#[test]
fn hostile_bytes_are_refused_at_their_place(rt: HostRuntime) -> Result<(), Fail> {
    for (puts, len, good, bad) in ROWS {
        let text = changed(rt.alloc(), puts, len)?;
        assert_eq!(rt; counted(&text), (good, bad));
    }
    Ok(())
}

#[test]
fn the_parts_of_a_record_are_those_of_its_bytes(rt: HostRuntime) -> Result<(), Fail> {
    let text = both(rt.alloc())?;
    let mut records = Records::new(&text);
    let first = Record {
        mask: 0x20,
        fd: 5,
        pid: 41,
        infos: &[],
    };
    let second = Record {
        mask: 0x100,
        fd: -1,
        pid: 42,
        infos: &SECOND[24..],
    };
    assert_eq!(rt; records.next(), Some(Ok(first)));
    assert_eq!(rt; records.next(), Some(Ok(second)));
    assert_eq!(rt; records.next(), None);
    Ok(())
}

#[test]
fn nothing_comes_after_a_bad_record(rt: HostRuntime) -> Result<(), Fail> {
    let mut text = both(rt.alloc())?;
    put(&mut text, 4, &[2]);
    let mut records = Records::new(&text);
    assert_eq!(rt; records.next(), Some(Err(BadRecord { at: 0 })));
    assert_eq!(rt; records.next(), None);
    assert_eq!(rt; records.next(), None);
    Ok(())
}

#[test]
fn a_record_is_written_byte_by_byte(rt: HostRuntime) -> Result<(), Fail> {
    let mut out = Vec::new(rt.alloc());
    write_record(&mut out, 24, 0x20, 5, 41)?;
    assert_eq!(rt; out.as_slice(), FIRST.as_slice());
    write_record(&mut out, 52, 0x100, -1, 42)?;
    assert_eq!(rt; &out[24..], &SECOND[..24]);
    Ok(())
}

#[test]
fn an_information_record_ends_where_its_length_says(rt: HostRuntime) -> Result<(), Fail> {
    assert_eq!(rt; info_len(&SECOND[24..]), Some(28));
    assert_eq!(rt; handle_end(&SECOND[24..]), Some(28));
    assert_eq!(rt; info_len(&[9, 0, 4, 0, 1]), Some(4));
    assert_eq!(rt; handle_end(&[1, 0, 4, 0]), None);
    assert_eq!(rt; info_len(&[]), None);
    one_record_at_most();
    one_reading_of_records();
    records_are_read_again();
    Ok(())
}
