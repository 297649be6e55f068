// The most groups, marks and objects that there may be, and the longest script.
use super::{assert_plays, ended};
use fan_shell::Status;
use std::test::Fail;

#[test]
fn there_are_at_most_128_open_groups(rt: HostRuntime) -> Result<(), Fail> {
    let mut lines = String::new(rt.alloc());
    for group in 1..=128 {
        lines.push_str(&format!(in rt.alloc(); "init 0 > group {group}\n")?)?;
    }
    lines.push_str("init 0 > EMFILE\nclose 5 > ok\ninit 0 > group 129\n")?;
    assert_plays(&rt, &lines)
}

#[test]
fn a_group_has_at_most_8192_marks(rt: HostRuntime) -> Result<(), Fail> {
    let mut lines = String::new(rt.alloc());
    for file in 0..8193 {
        let inode = file + 4;
        lines.push_str(&format!(in rt.alloc(); "mkfile /{file} > inode {inode}\n")?)?;
    }
    lines.push_str("init 0 > group 1\n")?;
    for file in 0..8192 {
        lines.push_str(&format!(in rt.alloc(); "mark 1 1 20 /{file} > ok\n")?)?;
    }
    lines.push_str("mark 1 1 20 /8192 > ENOSPC\nmark 1 1 1 /0 > ok\n")?;
    assert_plays(&rt, &lines)
}

#[test]
fn the_last_object_has_the_number_65535(rt: HostRuntime) -> Result<(), Fail> {
    let mut lines = String::new(rt.alloc());
    for file in 0..65_531 {
        let inode = file + 4;
        lines.push_str(&format!(in rt.alloc(); "mkfile /{file} > inode {inode}\n")?)?;
    }
    lines.push_str("mkfs > ENOSPC\nmkfile /z > inode 65535\nmkfile /y > ENOSPC\n")?;
    assert_plays(&rt, &lines)
}

// Bytes enough for a script of the greatest length, and one more: a line, then others, then a part of one.
const MOST: usize = 4_194_304;

#[test]
fn a_script_of_a_byte_more_than_the_most_is_not_answered(rt: HostRuntime) -> Result<(), Fail> {
    let one_line = vec![in rt.alloc(); b'z'; MOST + 1]?;
    let mut many_lines = b"mkfile /a\n".to_vec(rt.alloc())?;
    for _ in 0..MOST / 6 {
        many_lines.extend_from_slice(b"run 7\n")?;
    }
    many_lines.truncate(MOST + 1);
    for script in [&one_line, &many_lines] {
        let (status, sink) = ended(rt.alloc(), &["script"], script, 0, 0)?;
        assert_eq!(rt; status, Status::TooLong);
        assert_eq!(rt; sink.bytes().len(), 0);
    }
    let (status, sink) = ended(rt.alloc(), &["script"], &one_line[1..], 0, 0)?;
    assert_eq!(rt; status, Status::BadLine);
    assert_eq!(rt; sink.bytes(), b"bad line 1\n".as_slice());
    Ok(())
}
