// Spellings at their limits.
use fan_text::{read_bytes, read_decimal, read_hex, read_name, read_path, write_bytes};
use std::alloc::Global;
use std::test::Fail;

#[test]
fn numbers_are_read_on_their_one_spelling(rt: HostRuntime) -> Result<(), Fail> {
    let decimals: [(&[u8], Option<u64>); 11] = [
        (b"0", Some(0)),
        (b"9", Some(9)),
        (b"10", Some(10)),
        (b"18446744073709551615", Some(18446744073709551615)),
        (b"18446744073709551616", None),
        (b"99999999999999999999", None),
        (b"100000000000000000000", None),
        (b"00", None),
        (b"07", None),
        (b"1a", None),
        (b"", None),
    ];
    for (word, number) in decimals {
        assert_eq!(rt; read_decimal(word), number);
    }
    let hexadecimals: [(&[u8], Option<u64>); 11] = [
        (b"0", Some(0)),
        (b"9", Some(9)),
        (b"a", Some(10)),
        (b"10020", Some(65568)),
        (b"ffffffffffffffff", Some(18446744073709551615)),
        (b"10000000000000000", None),
        (b"00", None),
        (b"0a", None),
        (b"A", None),
        (b"fg", None),
        (b"", None),
    ];
    for (word, number) in hexadecimals {
        assert_eq!(rt; read_hex(word), number);
    }
    Ok(())
}

#[test]
fn names_are_told_from_other_words(rt: HostRuntime) -> Result<(), Fail> {
    let words: [(&[u8], bool); 10] = [
        (b"a", true),
        (b"...", true),
        (b".a", true),
        (b"!~", true),
        (b"", false),
        (b".", false),
        (b"..", false),
        (b"a/b", false),
        (b"a b", false),
        (b"\x7f", false),
    ];
    for (word, is_name) in words {
        assert_eq!(rt; read_name(word), is_name);
    }
    let mut name = vec![in rt.alloc(); b'n'; 255]?;
    assert!(rt; read_name(&name));
    name.push(b'n')?;
    assert!(rt; !read_name(&name));
    Ok(())
}

// A path of 4,095 bytes: names of 255 bytes, each behind a slash, but the last one.
fn longest_path(alloc: Global) -> Result<Vec<u8>, Fail> {
    let mut path = vec![in alloc; b'n'; 4095]?;
    for start in (0..4095).step_by(256) {
        path[start] = b'/';
    }
    Ok(path)
}

#[test]
fn paths_are_told_from_other_words(rt: HostRuntime) -> Result<(), Fail> {
    let words: [(&[u8], bool); 10] = [
        (b"/", true),
        (b"/a", true),
        (b"/a/b/.c", true),
        (b"", false),
        (b"a", false),
        (b"//", false),
        (b"/a/", false),
        (b"/a//b", false),
        (b"/a/../b", false),
        (b"/.", false),
    ];
    for (word, is_path) in words {
        assert_eq!(rt; read_path(word), is_path);
    }
    let mut path = longest_path(rt.alloc())?;
    assert!(rt; read_path(&path));
    path.push(b'n')?;
    assert!(rt; !read_path(&path));
    Ok(())
}

#[test]
fn bytes_are_written_and_read_again(rt: HostRuntime) -> Result<(), Fail> {
    let words: [(&[u8], Option<&[u8]>); 7] = [
        (b"00", Some(b"\x00")),
        (b"0ff0", Some(b"\x0f\xf0")),
        (b"", None),
        (b"0", None),
        (b"000", None),
        (b"0F", None),
        (b"0g", None),
    ];
    for (word, bytes) in words {
        let read = read_bytes(rt.alloc(), word)?;
        assert_eq!(rt; read.as_deref(), bytes);
    }
    let bytes = vec![in rt.alloc(); 0xa5; 64]?;
    let mut word = Vec::new(rt.alloc());
    write_bytes(&mut word, &bytes)?;
    assert_eq!(rt; word.len(), 128);
    assert_eq!(rt; read_bytes(rt.alloc(), &word)?, Some(bytes));
    write_bytes(&mut word, b"\x5a")?;
    assert_eq!(rt; &word[126..], b"a55a".as_slice());
    assert_eq!(rt; read_bytes(rt.alloc(), &word)?, None);
    Ok(())
}
