// What is printed for records, good ones and hostile ones. What is expected was written by hand from the
// layout and the lines of docs/FORMATS.md.
use fan_dump::{CutOff, one_dump_at_most, write_dump};
use fan_io::MemSink;
use fan_record::BadRecord;
use std::alloc::Global;
use std::test::Fail;

// FAN_CREATE of process 41: the entry `a` of the directory with inode 4, of filesystem 1. Its information
// record begins at 24, the name at 52.
const CREATED: [u8; 56] = [
    56, 0, 0, 0, 3, 0, 24, 0, 0, 1, 0, 0, 0, 0, 0, 0, 255, 255, 255, 255, 41, 0, 0, 0, 2, 0, 32, 0,
    1, 0, 0, 0, 0, 0, 0, 0, 8, 0, 0, 0, 1, 0, 0, 0, 4, 0, 0, 0, 0, 0, 0, 0, b'a', 0, 0, 0,
];

const BAD: &str = "bad record at 0\n";

const LINES: &str = "event 100 fd -1 pid 41
dfid_name fsid 0100000000000000 type 1 handle 0400000000000000 name 61
";

// The record with other bytes from a place on, and what is printed for it.
const ROWS: [(usize, &[u8], &str); 25] = [
    (0, &[], LINES),
    // event_len, vers, the reserved byte and metadata_len.
    (0, &[23], BAD),
    (0, &[55], BAD),
    (0, &[57], BAD),
    (0, &[0, 0, 0, 0], BAD),
    (4, &[2], BAD),
    (5, &[255], LINES),
    (6, &[25], BAD),
    // mask, fd and pid.
    (
        8,
        &[0, 0, 0, 0, 0, 0, 0, 0, 5, 0, 0, 0, 0, 0, 0, 0],
        "event 0 fd 5 pid 0
dfid_name fsid 0100000000000000 type 1 handle 0400000000000000 name 61
",
    ),
    (
        8,
        &[
            255, 255, 255, 255, 255, 255, 255, 255, 0, 0, 0, 128, 255, 255, 255, 127,
        ],
        "event ffffffffffffffff fd -2147483648 pid 2147483647
dfid_name fsid 0100000000000000 type 1 handle 0400000000000000 name 61
",
    ),
    // info_type and pad.
    (
        24,
        &[1],
        "event 100 fd -1 pid 41
fid fsid 0100000000000000 type 1 handle 0400000000000000
",
    ),
    (
        24,
        &[3],
        "event 100 fd -1 pid 41
dfid fsid 0100000000000000 type 1 handle 0400000000000000
",
    ),
    (
        24,
        &[9],
        "event 100 fd -1 pid 41
info 9 01000000000000000800000001000000040000000000000061000000
",
    ),
    (25, &[255], LINES),
    // len of the information record.
    (26, &[3], BAD),
    (26, &[31], BAD),
    (26, &[33], BAD),
    (26, &[255, 255], BAD),
    // An information record of its header alone, and one behind it.
    (
        24,
        &[0, 0, 4, 0, 255, 0, 28, 0, 10, 11],
        "event 100 fd -1 pid 41
info 0 -
info 255 0a0b00000800000001000000040000000000000061000000
",
    ),
    // handle_bytes and handle_type.
    (
        36,
        &[0],
        "event 100 fd -1 pid 41
dfid_name fsid 0100000000000000 type 1 handle - name 04
",
    ),
    (36, &[255, 255, 255, 255], BAD),
    (
        40,
        &[254, 255, 255, 255],
        "event 100 fd -1 pid 41
dfid_name fsid 0100000000000000 type -2 handle 0400000000000000 name 61
",
    ),
    // The name: none, one of three bytes, and one without a 0 behind it.
    (
        52,
        &[0],
        "event 100 fd -1 pid 41
dfid_name fsid 0100000000000000 type 1 handle 0400000000000000 name -
",
    ),
    (
        52,
        b"a.b",
        "event 100 fd -1 pid 41
dfid_name fsid 0100000000000000 type 1 handle 0400000000000000 name 612e62
",
    ),
    (52, b"aaaa", BAD),
];

// What is answered for bytes by a sink that fails at this call, where 0 is no call, and what it holds.
fn dumped(
    alloc: Global,
    bytes: &[u8],
    failing_put: u64,
) -> Result<(Result<Option<BadRecord>, CutOff>, MemSink), Fail> {
    let mut sink = MemSink::new(alloc, vec![in alloc; failing_put]?);
    let answer = write_dump(alloc, bytes, &mut sink);
    Ok((answer, sink))
}

// The record with other bytes from a place on.
fn changed(alloc: Global, place: usize, bytes: &[u8]) -> Result<Vec<u8>, Fail> {
    let mut record = CREATED.to_vec(alloc)?;
    for (there, byte) in record.iter_mut().skip(place).zip(bytes) {
        *there = *byte;
    }
    Ok(record)
}

#[test]
fn a_record_is_printed_whole_or_named_as_bad(rt: HostRuntime) -> Result<(), Fail> {
    for (place, bytes, text) in ROWS {
        let record = changed(rt.alloc(), place, bytes)?;
        let (answer, sink) = dumped(rt.alloc(), &record, 0)?;
        assert_eq!(rt; str::from_utf8(sink.bytes()), Ok(text));
        assert_eq!(rt; answer.is_ok_and(|bad| bad.is_some()), text == BAD);
    }
    one_dump_at_most();
    Ok(())
}

#[test]
fn a_bad_record_is_named_behind_the_lines_of_those_before(rt: HostRuntime) -> Result<(), Fail> {
    let mut bytes = CREATED.to_vec(rt.alloc())?;
    bytes.extend_from_slice(&CREATED[..24])?;
    let (answer, sink) = dumped(rt.alloc(), &bytes, 0)?;
    assert_eq!(rt; answer, Ok(Some(BadRecord { at: 56 })));
    assert_eq!(rt;
        sink.bytes().strip_prefix(LINES.as_bytes()),
        Some(b"bad record at 56\n".as_slice())
    );
    let (answer, sink) = dumped(rt.alloc(), &bytes, 2)?;
    assert_eq!(rt; answer, Err(CutOff::Failed));
    assert_eq!(rt; sink.bytes(), LINES.as_bytes());
    Ok(())
}
