// Which texts are put together.
use crate::Blocks;
use fan_io::{Failed, MemSink};
use std::test::Fail;

// Texts of these lengths, and how many bytes the sink holds after each.
const ROWS: [(usize, usize); 12] = [
    (8, 8),
    (8, 8),
    (7, 8),
    (1, 24),
    (31, 24),
    (40, 95),
    (0, 95),
    (50_000, 50_095),
    (65_535, 50_095),
    (1, 115_631),
    (65_536, 181_167),
    (65_535, 181_167),
];

#[test]
fn a_block_is_put_once_it_is_twice_as_long_as_the_one_before(rt: HostRuntime) -> Result<(), Fail> {
    let mut blocks = Blocks::new(rt.alloc());
    let mut sink = MemSink::new(rt.alloc(), Vec::new(rt.alloc()));
    for (length, held) in ROWS {
        let text = vec![in rt.alloc(); b'a'; length]?;
        assert_eq!(rt; blocks.push(&text, &mut sink), Ok(()));
        assert_eq!(rt; sink.bytes().len(), held);
    }
    assert_eq!(rt; blocks.flush(&mut sink), Ok(()));
    assert_eq!(rt; sink.bytes().len(), 246_702);
    Ok(())
}

#[test]
fn a_block_that_the_sink_refuses_is_not_put_again(rt: HostRuntime) -> Result<(), Fail> {
    let mut blocks = Blocks::new(rt.alloc());
    let mut sink = MemSink::new(rt.alloc(), [2].to_vec(rt.alloc())?);
    assert_eq!(rt; blocks.push(b"ab", &mut sink), Ok(()));
    assert_eq!(rt; blocks.push(b"cd", &mut sink), Ok(()));
    assert_eq!(rt; blocks.push(b"ef", &mut sink), Err(Failed));
    assert_eq!(rt; blocks.push(b"gh", &mut sink), Ok(()));
    assert_eq!(rt; blocks.flush(&mut sink), Ok(()));
    assert_eq!(rt; sink.bytes(), b"abgh".as_slice());
    Ok(())
}
