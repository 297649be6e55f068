// Which handles and names events have, and their keys.
ghost use Rattle.fan_event.specs.Names.{IsName};

use super::*;
use fan_bits::{FAN_CREATE, FAN_DELETE_SELF, FAN_OPEN, Happening, Place, init_words};
use fan_io::NoMemory;
use std::alloc::Global;
use std::fmt::Write;
use std::test::Fail;

// An event of process 41 at an entry of directory 2, and of no other object.
fn at_entry(alloc: Global, bits: u32, name: &[u8; 1]) -> Result<Event, NoMemory>
    requires { IsName name.now }
{
    let target = Target::Handle {
        fs: 1,
        object: None,
        dir: Some(2),
        name: Some(Name::of(alloc, name)?),
    };
    Ok(Event {
        bits,
        ondir: false,
        who: 41,
        perm: false,
        target,
    })
}

// A line is the flags of a group and what happens, ' = ' and what the group is told: the handle of the
// object, that of the directory and the name. The file 5 is the entry `a` of directory 4, which is one
// of directory 2. `entry` is FAN_CREATE in directory 4, `list` and `open` are FAN_OPEN of directory 4 and
// of the file, and `rmdir` and `unlink` are FAN_DELETE_SELF of them.
const REPORTED: &str = "\
0 open = mount 3 inode 5
0 list = mount 3 inode 4
200 entry = Some(4) None
200 list = Some(4) None
200 rmdir = Some(4) None
200 open = Some(5) None
200 unlink = Some(5) None
400 entry = None Some(4)
400 list = None Some(4)
400 rmdir = None Some(4)
400 open = None Some(4)
400 unlink = Some(5) None
c00 entry = None Some(4) a
c00 list = None Some(4) .
c00 rmdir = None Some(4) .
c00 open = None Some(4) a
c00 unlink = Some(5) None
600 entry = None Some(4)
600 list = None Some(4)
600 open = Some(5) Some(4)
600 unlink = Some(5) None
e00 entry = None Some(4) a
e00 list = None Some(4) .
e00 rmdir = None Some(4) .
e00 open = Some(5) Some(4) a
e00 unlink = Some(5) None
";

#[test]
fn each_group_is_told_the_handles_and_names_that_it_asks_for(rt: HostRuntime) -> Result<(), Fail> {
    for line in REPORTED.lines() {
        let Some((row, wanted)) = line.split_once(" = ") else {
            continue;
        };
        let shown = reported(rt.alloc(), row)?;
        assert_eq!(rt; shown.as_str(), wanted, "at {row}");
    }
    Ok(())
}

// What a group is told, by its flags and what happens.
fn reported(alloc: Global, row: &str) -> Result<String, Fail> {
    let (flags, kind) = row.split_once(' ').unwrap_or(("", ""));
    let init = init_words(u32::from_str_radix(flags, 16).unwrap_or(0))?;
    let happening = happening(kind);
    let event = event_for(alloc, init, &happening, b"a", happening.bits, 41, 41, false)?;
    shown(alloc, &event.target)
}

// An object, as a line has it.
fn shown(alloc: Global, target: &Target) -> Result<String, Fail> {
    let mut out = String::new(alloc);
    match target {
        Target::Fd { mount, inode } => write!(out, "mount {mount} inode {inode}")?,
        Target::Handle {
            object,
            dir,
            name,
            ..
        } => {
            write!(out, "{object:?} {dir:?}")?;
            if let Some(name) = name {
                let name = std::str::from_utf8(name.bytes()).unwrap_or("");
                write!(out, " {name}")?;
            }
        }
    }
    Ok(out)
}

// What happens, by a word.
fn happening(kind: &str) -> Happening {
    let dir = kind != "open" && kind != "unlink";
    let place = Place {
        mount: 3,
        fs: 1,
        inode: if dir { 4 } else { 5 },
        parent: Some(if dir { 2 } else { 4 }),
        dir,
    };
    let bits = match kind {
        "entry" => FAN_CREATE,
        "rmdir" | "unlink" => FAN_DELETE_SELF,
        _ => FAN_OPEN,
    };
    Happening {
        place,
        bits,
        ondir: dir && kind != "entry",
        entry: kind == "entry",
    }
}

#[test]
fn a_name_is_its_bytes(rt: HostRuntime) -> Result<(), Fail> {
    let name = Name::of(rt.alloc(), b"a")?;
    assert_eq!(rt; name.bytes(), b"a".as_slice());
    Ok(())
}

// Up to 14 bytes stand in place.
#[test]
fn short_and_long_names_are_their_bytes(rt: HostRuntime) -> Result<(), Fail> {
    for text in [
        "abcdefghijklmn",
        "abcdefghijklmno",
        "a name that is longer than these",
    ] {
        if is_name(text.as_bytes()) {
            let name = Name::of(rt.alloc(), text.as_bytes())?;
            let copy = name.copy_in(rt.alloc())?;
            assert_eq!(rt; copy.bytes(), text.as_bytes());
            assert_eq!(rt; copy, name);
        }
    }
    Ok(())
}

// FNV-1a of "a" is 0xaf63dc4c8601ec8c.
#[test]
fn names_tell_keys_apart(rt: HostRuntime) -> Result<(), Fail> {
    let mut created = at_entry(rt.alloc(), 0x100, b"a")?;
    let deleted = at_entry(rt.alloc(), 0x200, b"a")?;
    let other = at_entry(rt.alloc(), 0x100, b"b")?;
    assert!(rt; same_key(&created, &deleted));
    assert!(rt; !same_key(&created, &other));
    assert_eq!(rt; key_hash(&created), 0xaf63_dc4e_8601_ecde);
    assert_eq!(rt; key_hash(&deleted), 0xaf63_dc4e_8601_ecde);
    assert_ne!(rt; key_hash(&other), 0xaf63_dc4e_8601_ecde);
    created.take_bits(deleted.bits);
    assert_eq!(rt; created.bits, 0x300);
    Ok(())
}

#[test]
fn a_copy_is_the_same_event(rt: HostRuntime) -> Result<(), Fail> {
    let created = at_entry(rt.alloc(), 0x100, b"a")?;
    let copy = created.copy_in(rt.alloc())?;
    assert_eq!(rt; copy, created);
    Ok(())
}
