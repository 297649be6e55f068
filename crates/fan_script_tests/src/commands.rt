// The top call over sources and sinks in memory.
use fan_io::{MemSink, MemSource};
use fan_shell::{Status, run_plain};
use std::alloc::Global;
use std::process::Abort;
use std::test::Fail;

mod accesses;
mod handles;
mod limits;
mod marks;
mod queues;
mod tree;

const FIRST: &[u8] =
    b"mkfile /a\ninit 0\nmark 1 1 20 /a\nbegin 7 41 41 open /a\nrun 7\nread 1 4096\n";

const FIRST_TEXT: &[u8] =
    b"inode 4\ngroup 1\nok\nok\ntold 1 queued, done\nbytes 180000000300180020000000000000000000000029000000\n";

// FAN_CLOSE_WRITE of process 100 under descriptor 40.
const RECORD: &[u8] = b"\x18\0\0\0\x03\0\x18\0\x08\0\0\0\0\0\0\0\x28\0\0\0\x64\0\0\0";

const USAGE: &[u8] =
    b"usage: fanwatch script | dump | check | bulk SEED COUNT | race SEED WORKERS COUNT\n";

// No round: 18 lines, of which none is refused, and no event.
const BULK_0: &[u8] =
    b"lines 18\nasked 0\nallowed 0\ndenied 0\ntold 0\nread 0\nreclaimed 0\nrefused 0\n";

// The first draw below 8 from seed 1 is 6, and group 3 has no mark on a file of `/d`.
const BULK_1: &[u8] =
    b"lines 19\nasked 0\nallowed 0\ndenied 0\ntold 0\nread 0\nreclaimed 0\nrefused 1\n";

// How a command ends whose source and sink fail at these calls, where 0 is no call, and what it wrote.
fn ended(
    alloc: Global,
    words: &[&str],
    script: &[u8],
    failing_take: u64,
    failing_put: u64,
) -> Result<(Status, MemSink), Fail> {
    let mut owned = Vec::new(alloc);
    for word in words {
        owned.push(String::from_str(alloc, word)?)?;
    }
    let mut source = MemSource::new(
        Vec::from_slice(alloc, script)?,
        vec![in alloc; failing_take]?,
    );
    let mut sink = MemSink::new(alloc, vec![in alloc; failing_put]?);
    let status = run_plain(alloc, &owned, &mut source, &mut sink);
    Ok((status, sink))
}

// Plays a script, each line of which has its reply behind " > ".
fn assert_plays(rt: &(impl Abort + AllocGlobal), lines: &str) -> Result<(), Fail> {
    let mut script = Vec::new(rt.alloc());
    let mut transcript = Vec::new(rt.alloc());
    for line in lines.lines() {
        let (step, reply) = line.split_once(" > ").unwrap_or((line, "no reply"));
        script.extend_from_slice(step.as_bytes())?;
        script.push(b'\n')?;
        transcript.extend_from_slice(reply.as_bytes())?;
        transcript.push(b'\n')?;
    }
    let (status, sink) = ended(rt.alloc(), &["script"], &script, 0, 0)?;
    assert_eq!(rt; status, Status::Ok);
    assert_eq!(rt; str::from_utf8(sink.bytes()), str::from_utf8(&transcript));
    Ok(())
}

#[test]
fn commands_end_with_their_status_and_text(rt: HostRuntime) -> Result<(), Fail> {
    let table: [(&[&str], &[u8], Status, &[u8]); 16] = [
        (&["script"], FIRST, Status::Ok, FIRST_TEXT),
        (&["script"], b"", Status::Ok, b""),
        (
            &["script"],
            b"mkfile /a\nopen /a\n",
            Status::BadLine,
            b"inode 4\nbad line 2\n",
        ),
        (&["script"], b"mkfile /a", Status::Ok, b"inode 4\n"),
        (&["dump"], b"", Status::Ok, b""),
        (&["dump"], RECORD, Status::Ok, b"event 8 fd 40 pid 100\n"),
        (&["dump"], FIRST, Status::BadRecord, b"bad record at 0\n"),
        (&["bulk", "1", "0"], FIRST, Status::Ok, BULK_0),
        (&["bulk", "1", "1"], b"", Status::Ok, BULK_1),
        (&["bulk", "1", "100001"], FIRST, Status::TooLong, b""),
        (&["bulk", "1"], FIRST, Status::Usage, USAGE),
        (&["bulk", "1", "01"], FIRST, Status::Usage, USAGE),
        (
            &["bulk", "18446744073709551616", "1"],
            FIRST,
            Status::Usage,
            USAGE,
        ),
        (&[], FIRST, Status::Usage, USAGE),
        (&["scripts"], FIRST, Status::Usage, USAGE),
        (&["script", "script"], FIRST, Status::Usage, USAGE),
    ];
    for (words, script, status, text) in table {
        let (ended, sink) = ended(rt.alloc(), words, script, 0, 0)?;
        assert_eq!(rt; ended, status);
        assert_eq!(rt; sink.bytes(), text);
    }
    Ok(())
}

#[test]
fn a_source_whose_first_take_fails_writes_nothing(rt: HostRuntime) -> Result<(), Fail> {
    let (status, sink) = ended(rt.alloc(), &["script"], FIRST, 1, 0)?;
    assert_eq!(rt; status, Status::ReadFault);
    assert_eq!(rt; sink.bytes().len(), 0);
    Ok(())
}

// By the second put the replies of four lines wait, by the third that of the last.
#[test]
fn a_sink_that_fails_holds_the_blocks_before(rt: HostRuntime) -> Result<(), Fail> {
    let table: [(u64, &[u8]); 3] = [
        (1, b""),
        (2, b"inode 4\n"),
        (3, b"inode 4\ngroup 1\nok\nok\ntold 1 queued, done\n"),
    ];
    for (failing_put, held) in table {
        let (status, sink) = ended(rt.alloc(), &["script"], FIRST, 0, failing_put)?;
        assert_eq!(rt; status, Status::WriteFault);
        assert_eq!(rt; sink.bytes(), held);
    }
    Ok(())
}

#[test]
fn a_sink_that_fails_at_the_number_of_a_bad_line_holds_the_lines_before(
    rt: HostRuntime,
) -> Result<(), Fail> {
    let (status, sink) = ended(rt.alloc(), &["script"], b"mkfile /a\nopen /a\n", 0, 2)?;
    assert_eq!(rt; status, Status::WriteFault);
    assert_eq!(rt; sink.bytes(), b"inode 4\n".as_slice());
    Ok(())
}
