// Sources and sinks that fail, stop at the limit, or move a piece in parts.
ghost use Rattle.std.specs.Prelude.{◌<◌, ◌≤◌, None, IsOk, length};

use super::{
    Failed, MemSink, MemSource, Reader, Sink, Source, StdSink, StdSource, TakeRefused, put_all,
    take_all,
};
use std::io;
use std::io::{Read, Write};
use std::test::Fail;

// How many bytes a fake moves in one call.
const WIDTH: usize = 3;

// Gives its bytes in pieces of three. As a reader it fails in place of the end.
#[derive(Drop)]
struct Pieces {
    bytes: &'static [u8],
}

// Gives the next piece, and answers its length.
fn next_piece(bytes: &mut &'static [u8], into: &mut [u8]) -> usize
    ensures { result ≤ length into.old }
{
    let count = bytes.len().min(into.len()).min(WIDTH);
    into[..count].copy_from_slice(&bytes[..count]);
    *bytes = &bytes[count..];
    count
}

impl Source for Pieces {
    ghost left = { λ _. None };

    ghost faults = { λ _. 0 };

    fn take(&mut self, into: &mut [u8]) -> Result<usize, Failed> {
        Ok(next_piece(&mut self.bytes, into))
    }
}

impl Read for Pieces {
    fn read(&mut self, into: &mut [u8]) -> io::Result<usize> {
        if self.bytes.is_empty() {
            return Err(io::ErrorKind::Other.into());
        }
        Ok(next_piece(&mut self.bytes, into))
    }
}

// Takes three bytes of a piece at most, and none once it has `room` bytes.
#[derive(Drop)]
struct Narrow {
    bytes: Vec<u8>,
    room: usize,
}

impl Write for Narrow {
    fn write(&mut self, bytes: &[u8]) -> io::Result<usize> {
        let left = self.room.saturating_sub(self.bytes.len());
        let count = bytes.len().min(left).min(WIDTH);
        self.bytes.extend_from_slice(&bytes[..count])?;
        Ok(count)
    }

    fn flush(&mut self) -> io::Result<()> {
        Ok(())
    }
}

// Gives its bytes in pieces of three, and says that its reads never fail.
#[derive(Drop)]
struct Steady {
    bytes: &'static [u8],
}

impl Reader for Steady {
    ghost left = { λ _. None };

    ghost may_answer = { λ _ answer _. IsOk answer };

    fn read_once(&mut self, into: &mut [u8]) -> io::Result<usize> {
        Ok(next_piece(&mut self.bytes, into))
    }
}

// A source over such a reader never fails.
fn take_steadily(source: &mut StdSource<Steady>, into: &mut [u8]) -> Result<usize, Failed>
    requires { 0 < length into.old }
    ensures { IsOk result }
{
    source.take(into)
}

#[test]
fn a_reader_gives_its_bytes_and_its_failure(rt: HostRuntime) {
    let mut source = StdSource::new(Pieces { bytes: b"abcd" });
    let mut into = [0u8; 8];
    assert_eq!(rt; source.take(&mut into), Ok(3));
    assert_eq!(rt; source.take(&mut into), Ok(1));
    assert_eq!(rt; into.as_slice(), b"dbc\0\0\0\0\0".as_slice());
    assert_eq!(rt; source.take(&mut into), Err(Failed));
}

#[test]
fn the_end_of_a_reader_is_no_fault(rt: HostRuntime) {
    let mut slice = StdSource::new(b"abcd".as_slice());
    let mut steady = StdSource::new(Steady { bytes: b"abcd" });
    let mut into = [0u8; 3];
    for wanted in [3, 1, 0, 0] {
        assert_eq!(rt; slice.take(&mut into), Ok(wanted));
        assert_eq!(rt; take_steadily(&mut steady, &mut into), Ok(wanted));
    }
}

#[test]
fn a_writer_that_takes_no_byte_has_failed(rt: HostRuntime) -> Result<(), Fail> {
    let mut narrow = Narrow {
        bytes: Vec::new(rt.alloc()),
        room: 4,
    };
    let mut sink = StdSink::new(&mut narrow as &mut dyn Write);
    assert_eq!(rt; put_all(&mut sink, b"abcd"), Ok(()));
    assert_eq!(rt; sink.put(b"e"), Err(Failed));
    assert_eq!(rt; narrow.bytes.as_slice(), b"abcd".as_slice());
    Ok(())
}

#[test]
fn a_writer_that_never_fails_is_a_sink_that_never_fails(rt: HostRuntime) -> Result<(), Fail> {
    let mut held = Vec::new(rt.alloc());
    let mut sink = StdSink::new(&mut held);
    for piece in ["a", "bcd", ""] {
        assert_eq!(rt; put_all(&mut sink, piece.as_bytes()), Ok(()));
    }
    assert_eq!(rt; held.as_slice(), b"abcd".as_slice());
    Ok(())
}

#[test]
fn short_pieces_are_taken_to_the_end(rt: HostRuntime) -> Result<(), Fail> {
    let mut source = Pieces {
        bytes: b"mkfile /a\n",
    };
    let all = take_all(rt.alloc(), &mut source, 100)?;
    assert_eq!(rt; all.as_slice(), b"mkfile /a\n".as_slice());
    Ok(())
}

#[test]
fn a_failing_take_leaves_the_bytes(rt: HostRuntime) -> Result<(), Fail> {
    let bytes = b"ab".to_vec(rt.alloc())?;
    let mut source = MemSource::new(bytes, [1].to_vec(rt.alloc())?);
    let first = take_all(rt.alloc(), &mut source, 100);
    assert_eq!(rt; first.map(|all| all.len()), Err(TakeRefused::Failed));
    let second = take_all(rt.alloc(), &mut source, 100)?;
    assert_eq!(rt; second.as_slice(), b"ab".as_slice());
    Ok(())
}

#[test]
fn one_byte_past_the_limit_is_too_long(rt: HostRuntime) -> Result<(), Fail> {
    for (length, limit, fits) in [
        (0, 0, true),
        (1, 0, false),
        (4096, 4096, true),
        (4097, 4096, false),
        (5000, 5000, true),
        (5001, 5000, false),
    ] {
        let bytes = vec![in rt.alloc(); 7; length]?;
        let mut source = MemSource::new(bytes, Vec::new(rt.alloc()));
        let taken = take_all(rt.alloc(), &mut source, limit).map(|all| all.len());
        let wanted = if fits {
            Ok(length)
        } else {
            Err(TakeRefused::TooLong)
        };
        assert_eq!(rt; taken, wanted, "{length} bytes at the limit {limit}");
    }
    Ok(())
}

#[test]
fn a_failing_put_adds_no_bytes(rt: HostRuntime) -> Result<(), Fail> {
    let mut sink = MemSink::new(rt.alloc(), [2].to_vec(rt.alloc())?);
    assert_eq!(rt; sink.reserve(4), Ok(()));
    assert_eq!(rt; put_all(&mut sink, b"ab"), Ok(()));
    assert_eq!(rt; put_all(&mut sink, b"cd"), Err(Failed));
    assert_eq!(rt; put_all(&mut sink, b"ef"), Ok(()));
    assert_eq!(rt; sink.bytes(), b"abef".as_slice());
    Ok(())
}
