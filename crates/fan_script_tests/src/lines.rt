// Lines at their limits, and bytes that are no line.
use fan_script::{Line, LineRefused, OpWord, Step, read_line};
use std::alloc::{AllocError, Global};
use std::test::Fail;

// The name of a line's step, its numbers in order, and its path or its response.
fn parts(line: &Line) -> (&'static str, [u64; 4], &[u8]) {
    match line {
        Line::One(step) => step_parts(step),
        Line::Run(access) => ("Run", one(*access), &[]),
    }
}

fn one(number: u32) -> [u64; 4] {
    [u64::from(number), 0, 0, 0]
}

fn step_parts(step: &Step) -> (&'static str, [u64; 4], &[u8]) {
    match step {
        Step::MkFile { path } => ("MkFile", [0; 4], path.as_slice()),
        Step::MkDir { path } => ("MkDir", [0; 4], path.as_slice()),
        Step::MkFs => ("MkFs", [0; 4], &[]),
        Step::Mount { fs, path } => ("Mount", one(*fs), path.as_slice()),
        Step::Umount { path } => ("Umount", [0; 4], path.as_slice()),
        Step::Limit { entries } => ("Limit", one(*entries), &[]),
        Step::Init { flags } => ("Init", one(*flags), &[]),
        Step::Mark {
            group,
            flags,
            mask,
            path,
        } => {
            let words = [u64::from(*group), u64::from(*flags), *mask, 0];
            ("Mark", words, path.as_slice())
        }
        Step::Begin {
            access,
            pid,
            tid,
            path,
            ..
        } => {
            let numbers = [u64::from(*access), u64::from(*pid), u64::from(*tid), 0];
            ("Begin", numbers, path.as_slice())
        }
        Step::Advance { access } => ("Advance", one(*access), &[]),
        Step::Read { group, size } => ("Read", [u64::from(*group), u64::from(*size), 0, 0], &[]),
        Step::Write { group, bytes } => ("Write", one(*group), bytes.as_slice()),
        Step::Close { group } => ("Close", one(*group), &[]),
        Step::Grace => ("Grace", [0; 4], &[]),
    }
}

// A line, its step, its numbers, and its path or its response.
const GOOD: [(&str, &str, [u64; 4], &str); 24] = [
    ("mkfile /...", "MkFile", [0; 4], "/..."),
    ("mkdir /!/~/a", "MkDir", [0; 4], "/!/~/a"),
    ("mkfs", "MkFs", [0; 4], ""),
    ("mount 1 /", "Mount", [1, 0, 0, 0], "/"),
    ("mount 65535 /m", "Mount", [65535, 0, 0, 0], "/m"),
    ("umount /m/n", "Umount", [0; 4], "/m/n"),
    ("limit 1", "Limit", [1, 0, 0, 0], ""),
    ("limit 16384", "Limit", [16384, 0, 0, 0], ""),
    ("init 0", "Init", [0; 4], ""),
    ("init ffffffff", "Init", [4294967295, 0, 0, 0], ""),
    (
        "mark 4294967295 0 0 /a",
        "Mark",
        [4294967295, 0, 0, 0],
        "/a",
    ),
    (
        "mark 1 10f ffffffffffffffff /a/b",
        "Mark",
        [1, 271, 18446744073709551615, 0],
        "/a/b",
    ),
    ("begin 1 2 3 open /open", "Begin", [1, 2, 3, 0], "/open"),
    (
        "begin 4294967295 1 2147483647 exec /a",
        "Begin",
        [4294967295, 1, 2147483647, 0],
        "/a",
    ),
    (
        "begin 7 2147483647 1 closer /",
        "Begin",
        [7, 2147483647, 1, 0],
        "/",
    ),
    ("step 4294967295", "Advance", [4294967295, 0, 0, 0], ""),
    ("run 1", "Run", [1, 0, 0, 0], ""),
    ("run 4294967295", "Run", [4294967295, 0, 0, 0], ""),
    ("read 1 0", "Read", [1, 0, 0, 0], ""),
    (
        "read 1234567890 1048576",
        "Read",
        [1234567890, 1048576, 0, 0],
        "",
    ),
    ("write 2 00", "Write", [2, 0, 0, 0], "\0"),
    ("write 2 0009c2af6a", "Write", [2, 0, 0, 0], "\0\t\u{af}j"),
    ("close 1", "Close", [1, 0, 0, 0], ""),
    ("grace", "Grace", [0; 4], ""),
];

// No line, each up to a bar.
const BAD: [&str; 18] = [
    "| |\n|#|mkfiles /a|Mkfile /a|MKFS|mk|mkfile\t/a",
    " mkfile /a|mkfile  /a|mkfile /a |mkfile|mkfile |mkfile a|mkfile /a/|mkfile //a|mkfile /a /b",
    "mkfile /.|mkfile /..|mkfile /a/..|mkfile /a/./b|mkfile /a\r|mkfile /\u{1f}|mkfile /\u{7f}",
    "mkdir|mkdir |mkdir a|mkdir /a /b|mkdir  /a|mkdir /a |mkdir 1 /a",
    "mkfs |mkfs 1|mkfs /a| mkfs|mkfss",
    "mount|mount /a|mount 1|mount 1 |mount 0 /a|mount 65536 /a|mount 01 /a|mount 1 /a /b",
    "umount|umount 1|umount /a/../b|umount /a ",
    "limit|limit 0|limit 16385|limit 01|limit -1|limit 1 1|limit 10 ",
    "init|init |init 00|init 0c|init C|init 100000000|init 0x4|init 4 4|init g",
    "mark 0 0 0 /a|mark 4294967296 0 0 /a|mark 1 100000000 0 /a|mark 1 0 10000000000000000 /a",
    "mark 1 0 0|mark 1 0 /a|mark 1 0 0 /a /b|mark 1 0 00 /a|mark 1 00 0 /a|mark 1 F 0 /a",
    "begin 0 1 1 open /a|begin 1 0 1 open /a|begin 1 1 0 open /a|begin 4294967296 1 1 open /a",
    "begin 1 2147483648 1 open /a|begin 1 1 2147483648 open /a|begin 1 1 open /a|begin 1 1 1 open",
    "begin 1 1 1 openat /a|begin 1 1 1 Open /a|begin 1 1 1  /a|begin 1 1 1 /a",
    "step|step 0|step 4294967296|step 1 1|run|run 0|run 4294967296|run 18446744073709551617|run +1",
    "read 1 1048577|read 1 00|read 1 |read 1|read 0 1|read 1 1 1|close|close 0|close 1 |close 1a",
    "write 1|write 1 |write 0 00|write 1 0|write 1 0g|write 1 0`|write 1 0:|write 1 aF|write 1 00 00",
    "grace |grace 1|grac",
];

// Each word of an operation.
const OPS: [(&str, OpWord); 12] = [
    ("open", OpWord::Opens),
    ("exec", OpWord::Execs),
    ("read", OpWord::Reads),
    ("write", OpWord::Writes),
    ("closew", OpWord::ClosesWrite),
    ("closer", OpWord::ClosesRead),
    ("attrib", OpWord::Attribs),
    ("create", OpWord::Creates),
    ("mkdir", OpWord::MakesDir),
    ("unlink", OpWord::Unlinks),
    ("rmdir", OpWord::RemovesDir),
    ("rename", OpWord::Renames),
];

// Whether the bytes are read as a step, with these numbers and this path or response.
fn is_read_as(alloc: Global, bytes: &str, step: &str, numbers: [u64; 4], last: &str) -> bool {
    match read_line(alloc, bytes.as_bytes()) {
        Ok(line) => parts(&line) == (step, numbers, last.as_bytes()),
        Err(_) => false,
    }
}

fn is_bad(alloc: Global, bytes: &[u8]) -> bool {
    matches!(read_line(alloc, bytes), Err(LineRefused::BadLine))
}

// Whether the bytes are read as the beginning of such an access, and its second path.
fn begins(alloc: Global, bytes: &[u8], wanted: OpWord, last: Option<&[u8]>) -> bool {
    match read_line(alloc, bytes) {
        Ok(Line::One(Step::Begin { op, second, .. })) => {
            op == wanted && second.as_ref().map(|path| path.as_slice()) == last
        }
        _ => false,
    }
}

// The bytes of a line: its front, and so many bytes alike.
fn line_of(alloc: Global, front: &[u8], byte: u8, count: usize) -> Result<Vec<u8>, AllocError> {
    let mut bytes = Vec::from_slice(alloc, front)?;
    for _ in 0..count {
        bytes.push(byte)?;
    }
    Ok(bytes)
}

#[test]
fn lines_are_read_as_spelled(rt: HostRuntime) -> Result<(), Fail> {
    for (bytes, step, numbers, last) in GOOD {
        let right = is_read_as(rt.alloc(), bytes, step, numbers, last);
        assert!(rt; right, "{bytes}");
    }
    Ok(())
}

#[test]
fn other_bytes_are_no_line(rt: HostRuntime) -> Result<(), Fail> {
    for row in BAD {
        for bytes in row.split('|') {
            let bad = is_bad(rt.alloc(), bytes.as_bytes());
            assert!(rt; bad, "{bytes}");
        }
    }
    Ok(())
}

#[test]
fn a_rename_alone_has_a_second_path(rt: HostRuntime) -> Result<(), Fail> {
    for (word, op) in OPS {
        let renames = op == OpWord::Renames;
        assert_eq!(rt; op.takes_second(), renames, "{word}");
        let one = format!(in rt.alloc(); "begin 1 2 3 {word} /a")?;
        let two = format!(in rt.alloc(); "begin 1 2 3 {word} /a /b")?;
        let read = begins(rt.alloc(), one.as_bytes(), op, None);
        let read_two = begins(rt.alloc(), two.as_bytes(), op, Some(b"/b"));
        assert!(rt; read != renames, "{one}");
        assert!(rt; read_two == renames, "{two}");
        assert!(rt; is_bad(rt.alloc(), one.as_bytes()) == renames, "{one}");
        assert!(rt; is_bad(rt.alloc(), two.as_bytes()) != renames, "{two}");
    }
    assert!(rt; is_bad(rt.alloc(), b"begin 1 2 3 rename /a /b /c"));
    Ok(())
}

#[test]
fn names_and_responses_have_limits(rt: HostRuntime) -> Result<(), Fail> {
    for (count, read) in [(0, true), (255, true), (256, false)] {
        let bytes = line_of(rt.alloc(), b"mkdir /", b'~', count)?;
        assert_eq!(rt; !is_bad(rt.alloc(), &bytes), read, "{count}");
    }
    for (count, read) in [(0, false), (127, false), (128, true), (130, false)] {
        let bytes = line_of(rt.alloc(), b"write 1 ", b'f', count)?;
        assert_eq!(rt; !is_bad(rt.alloc(), &bytes), read, "{count}");
    }
    Ok(())
}
