// Flags and masks of fanotify_mark(2), with what is made of them and of a mark.
use super::*;

// What a call with these words asks for, of a group that was made with the last.
fn words(flags: u32, mask: u64, init: u32) -> Option<MarkWords> {
    let group = init_words(init).ok()?;
    mark_words(flags, mask, group).ok()
}

// The flags of fanotify_mark(2), from FAN_MARK_ADD to FAN_MARK_FILESYSTEM.
const FLAGS: [u32; 9] = [0x1, 0x2, 0x4, 0x8, 0x10, 0x20, 0x40, 0x80, 0x100];

// For each flag, and beside it each flag, whether the two are taken: y or n. A flag beside itself
// is alone.
const PAIRS: [&[u8; 9]; 9] = [
    b"ynyyyyyny",
    b"nyyyyyyny",
    b"yynnnnnnn",
    b"yynnnnnnn",
    b"yynnnnnyn",
    b"yynnnnnnn",
    b"yynnnnnnn",
    b"nnnnynnyy",
    b"yynnnnnyn",
];

#[test]
fn each_pair_of_flags_is_taken_or_refused(rt: HostRuntime) {
    for (row, first) in PAIRS.iter().zip(FLAGS) {
        for (wanted, second) in row.iter().zip(FLAGS) {
            let taken = words(first | second, 0x20, 0).is_some();
            assert_eq!(rt; taken, *wanted == b'y', "at {first:x} and {second:x}");
        }
    }
}

#[test]
fn flags_of_a_call_say_what_is_done(rt: HostRuntime) {
    let cases = [
        (0x1, Some((Verb::Add, Kind::Inode, false, false, false))),
        (0x2, Some((Verb::Remove, Kind::Inode, false, false, false))),
        (0x9, Some((Verb::Add, Kind::Inode, true, false, false))),
        (0x11, Some((Verb::Add, Kind::Mount, false, false, false))),
        (0x21, Some((Verb::Add, Kind::Inode, false, true, false))),
        (0x41, Some((Verb::Add, Kind::Inode, false, false, true))),
        (
            0x102,
            Some((Verb::Remove, Kind::Filesystem, false, false, false)),
        ),
        (0x90, Some((Verb::Flush, Kind::Mount, false, false, false))),
        (0x111, None),
        (0x190, None),
        (0x201, None),
        (0x401, None),
        (0x8000_0001, None),
    ];
    for (flags, wanted) in cases {
        let found = words(flags, 0x20, 0).map(|words| {
            (
                words.verb,
                words.kind,
                words.only_dir,
                words.ignored,
                words.survives,
            )
        });
        assert_eq!(rt; found, wanted, "at {flags:x}");
    }
}

#[test]
fn mask_bits_go_by_the_group_and_the_kind(rt: HostRuntime) {
    let cases = [
        (0x0, 0x1, [0, 1, 3, 4, 5, 12, 27, 30].as_slice()),
        (0x4, 0x1, [0, 1, 3, 4, 5, 12, 16, 17, 18, 27, 30].as_slice()),
        (0x8, 0x1, [0, 1, 3, 4, 5, 12, 16, 17, 18, 27, 30].as_slice()),
        (
            0x200,
            0x1,
            [0, 1, 2, 3, 4, 5, 6, 7, 8, 9, 10, 11, 12, 27, 30].as_slice(),
        ),
        (0x400, 0x11, [0, 1, 3, 4, 5, 12, 27, 30].as_slice()),
    ];
    for (init, flags, bits) in cases {
        for bit in 0..64_u32 {
            let taken = words(flags, 1 << bit, init).is_some();
            assert_eq!(rt;
                taken,
                bits.contains(&bit),
                "at {bit} with {flags:x}, {init:x}"
            );
        }
    }
}

#[test]
fn masks_are_taken_whole(rt: HostRuntime) {
    let cases = [
        (0x1, 0, None),
        (0x1, 0x4800_0021, Some(0x4800_0021)),
        (0x1, 0x1_0000_0020, None),
        (0x1, 0x1_0020, None),
        (0x80, 0, Some(0)),
        (0x80, 0xffff_ffff_ffff_ffff, Some(0)),
    ];
    for (flags, mask, wanted) in cases {
        let found = words(flags, mask, 0).map(|words| words.mask);
        assert_eq!(rt; found, wanted, "at {flags:x} {mask:x}");
    }
}

// A mark of the fourth object by these flags and this mask, from these bits before: mask, ignored
// set, survival.
fn put(flags: u32, mask: u64, before: Option<(u32, u32, bool)>) -> Option<(u32, u32, bool)> {
    let words = words(flags, mask, 0)?;
    let class = Class::Notif;
    let old = before.map(|bits| Mark {
        group: 1,
        class,
        object: 4,
        kind: Kind::Inode,
        mask: bits.0,
        ignored: bits.1,
        survives: bits.2,
    });
    let change = Change::Put {
        group: 1,
        class,
        words,
        object: 4,
    };
    updated(old, &change).map(|mark| (mark.mask, mark.ignored, mark.survives))
}

#[test]
fn bits_are_put_on_marks_and_taken_from_them(rt: HostRuntime) {
    let cases = [
        (0x1, 0x20, None, Some((0x20, 0, false))),
        (0x1, 0x4000_0000, None, None),
        (
            0x1,
            0x4000_0001,
            Some((0x20, 0, false)),
            Some((0x4000_0021, 0, false)),
        ),
        (0x61, 0x4000_0020, None, Some((0, 0x20, true))),
        (0x21, 0x2, Some((0x20, 0x1, true)), Some((0x20, 0x3, true))),
        (0x2, 0x20, Some((0x30, 0, false)), Some((0x10, 0, false))),
        (0x2, 0x20, Some((0x4000_0020, 0, false)), None),
        (0x2, 0x20, Some((0x20, 0x1, false)), Some((0, 0x1, false))),
        (0x22, 0x1, Some((0x20, 0x3, true)), Some((0x20, 0x2, true))),
        (0x22, 0x1, Some((0, 0x1, true)), None),
        (0x2, 0x20, None, None),
    ];
    for (flags, mask, before, wanted) in cases {
        assert_eq!(rt; put(flags, mask, before), wanted, "at {flags:x} {mask:x}");
    }
}
