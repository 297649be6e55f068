// Short histories of listeners, with outcomes worked out from fanotify(7).
ghost use Rattle.std.specs.Prelude.{◌≤◌, ◌^◌, length};
ghost use Rattle.fan_event.specs.Names.{IsName};

use super::*;
use fan_bits::{FAN_OPEN_PERM, Happening, InitWords, Place, init_words};
use fan_event::is_name;
use fan_io::NoMemory;
use std::alloc::Global;
use std::test::Fail;

// A line is a history, ' = ' and its outcomes. The words of a history are n.FLAGS.LIMIT for the listener,
// then t, d, m and p.BITS.WHO.INODE.NAME for a told event, one on a directory, one on another mount and a
// permission event, e and f for one on the entry NAME of the directory INODE, a file or a directory,
// r.SIZE for a read, w.FD.VALUE for a response and s.FD.VALUE.LENGTH for one of another length, q.ENTRY for
// an answer, and c for the close. The thread is WHO + 100, and without a NAME it is a. A record is shown as
// [MASK FD PID] with its information records, and a refusal as its variant and its error.
const HISTORIES: &str = "\
n.0.2 t.32.41.4 t.32.41.5 t.32.41.4 t.32.41.5 r.72 r.24 = Q1 Q2 O3 O3 [32 0 41][32 1 41][16384 -1 0] Again:Eagain
n.4.1 p.65536.50.4 p.65536.51.5 r.48 w.0.1 q.1 = Q1 O2 [65536 0 50][16384 -1 0] A1 allow
n.4.9 t.32.41.4 t.32.41.4 t.1.41.4 t.32.42.4 r.4096 p.65536.41.4 p.65536.41.4 r.4096 = Q1 M1 M1 Q2 [33 0 41][32 1 42] Q3 Q4 [65536 2 41][65536 3 41]
n.4.9 p.65536.50.4 q.1 w.0.1 r.24 w.0.1 w.0.1 q.1 q.1 = Q1 wait NotPending:Enoent [65536 0 50] A1 NotPending:Enoent allow wait
n.4.9 p.65536.50.4 w.0.1 r.24 s.0.1.7 w.0.3 w.99.3 w.99.1 w.0.1 = Q1 NotPending:Enoent [65536 0 50] Length:Einval Value:Einval Value:Einval NotPending:Enoent A1
n.4.9 p.65536.50.4 q.1 p.65536.51.5 q.2 r.24 c q.1 q.2 r.24 w.0.1 p.65536.52.4 = Q1 wait Q2 wait [65536 0 50] ok shut shut Closed:Ebadf Closed:Ebadf C
n.8.9 p.65536.50.4 q.1 r.24 w.0.1 q.1 p.65536.50.4 r.24 w.1.2 q.2 = Q1 wait [65536 0 50] A1 allow Q2 [65536 1 50] A2 deny
n.4.9 p.65536.50.4 r.24 w.0.2 q.1 = Q1 [65536 0 50] A1 deny
n.0.9 r.24 = Again:Eagain
n.0.9 r.0 = Again:Eagain
n.0.9 t.32.41.4 r.0 = Q1 Small:Einval
n.0.9 t.32.41.4 r.23 r.24 = Q1 Small:Einval [32 0 41]
n.0.9 t.32.41.4 t.32.41.5 r.47 r.24 r.24 = Q1 Q2 [32 0 41] [32 1 41] Again:Eagain
n.0.9 t.32.41.4 t.32.41.5 t.32.41.6 r.71 r.71 = Q1 Q2 Q3 [32 0 41][32 1 41] [32 2 41]
n.0.9 t.32.41.4 t.32.42.4 = Q1 Q2
n.0.9 t.32.41.4 d.32.41.4 d.1.41.4 r.48 = Q1 Q2 M2 [32 0 41][33 1 41]
n.0.9 t.32.41.4 m.32.41.4 m.2.41.4 r.48 = Q1 Q2 M2 [32 0 41][34 1 41]
n.0.9 t.32.41.4 t.32.41.5 t.1.41.4 r.48 = Q1 Q2 M1 [33 0 41][32 1 41]
n.0.9 t.32.41.4 r.24 t.32.41.4 r.24 = Q1 [32 0 41] Q2 [32 1 41]
n.4.9 p.65536.41.4 t.32.41.4 t.1.41.4 r.96 = Q1 Q2 M2 [65536 0 41][33 1 41]
n.4.9 t.32.41.4 p.65536.41.4 r.48 = Q1 Q2 [32 0 41][65536 1 41]
n.0.1 t.32.41.4 t.1.41.4 r.24 t.1.41.4 r.24 = Q1 O2 [32 0 41] O2 [16384 -1 0]
n.0.1 t.32.41.4 t.1.41.4 r.48 t.1.41.4 r.24 = Q1 O2 [32 0 41][16384 -1 0] Q3 [1 1 41]
n.16.1 t.32.41.4 t.32.41.5 t.1.41.4 r.48 = Q1 Q2 M1 [33 0 41][32 1 41]
n.0.2 t.32.41.4 t.1.41.4 r.24 = Q1 M1 [33 0 41]
n.4.1 p.65536.50.4 p.65536.51.4 t.32.50.4 q.2 r.24 = Q1 O2 O2 wait [65536 0 50]
n.4.9 c c t.32.41.4 p.65536.41.4 r.24 w.0.1 q.1 = ok ok C C Closed:Ebadf Closed:Ebadf shut
n.4.9 p.65536.50.4 r.24 w.0.1 c q.1 q.1 = Q1 [65536 0 50] A1 ok allow shut
n.4.9 p.65536.50.4 p.65536.51.5 r.48 w.1.2 w.0.1 q.1 q.2 = Q1 Q2 [65536 0 50][65536 1 51] A2 A1 allow deny
n.4.9 q.7 = wait
n.4.9 p.65536.50.4 r.24 w.4294967295.1 w.2147483648.1 w.0.1 = Q1 [65536 0 50] NotPending:Enoent NotPending:Enoent A1
n.4.9 t.32.50.4 r.24 w.0.1 = Q1 [32 0 50] NotPending:Enoent
n.4.9 t.32.50.4 p.65536.50.4 r.48 w.0.1 w.1.1 q.2 = Q1 Q2 [32 0 50][65536 1 50] NotPending:Enoent A2 allow
n.4.1 p.65536.50.4 p.65536.51.4 r.48 p.65536.52.4 r.24 w.1.2 q.3 = Q1 O2 [65536 0 50][16384 -1 0] Q3 [65536 1 52] A3 deny
n.4.9 p.65536.50.4 r.24 s.0.1.0 s.0.1.9 s.0.1.8 q.1 = Q1 [65536 0 50] Length:Einval Length:Einval A1 allow
n.4.9 p.65536.50.4 r.24 w.0.0 w.0.4294967295 w.0.2 = Q1 [65536 0 50] Value:Einval Value:Einval A1
n.4.9 c s.0.1.7 w.0.3 r.0 = ok Closed:Ebadf Closed:Ebadf Closed:Ebadf
n.4.9 p.65536.50.4 r.24 w.0.1 w.0.2 q.1 = Q1 [65536 0 50] A1 NotPending:Enoent allow
n.4.9 p.65536.50.4 r.24 w.0.2 q.1 q.1 c q.1 = Q1 [65536 0 50] A1 deny wait ok shut
n.0.9 t.32.41.4 r.4294967295 r.4294967295 = Q1 [32 0 41] Again:Eagain
n.256.9 t.32.77.4 r.24 = Q1 [32 0 177]
n.260.9 p.65536.50.4 r.24 w.0.1 q.1 = Q1 [65536 0 150] A1 allow
n.8.9 p.65536.41.4 p.65536.41.4 p.131072.41.4 r.48 w.1.1 q.1 q.2 q.3 = Q1 Q2 Q3 [65536 0 41][65536 1 41] A2 wait allow wait
n.0.3 t.32.41.4 t.32.41.5 t.32.41.6 t.1.41.5 r.96 = Q1 Q2 Q3 O4 [32 0 41][32 1 41][32 2 41][16384 -1 0]
n.0.2 t.32.41.4 t.32.41.5 t.32.41.6 r.48 t.32.41.7 t.32.41.8 r.72 = Q1 Q2 O3 [32 0 41][32 1 41] Q4 O3 [16384 -1 0][32 2 41]
";

// The same for groups that get handles: with FAN_REPORT_FID (512) that of the object, with
// FAN_REPORT_DIR_FID (1024) that of its directory, and with FAN_REPORT_NAME (2048) the name in it.
const BY_HANDLES: &str = "\
n.1536.9 t.32.41.4 r.79 r.80 = Q1 Small:Einval [32 -1 41 03001c0001000000000000000800000001000000020000000000000001001c00010000000000000008000000010000000400000000000000]
n.3072.9 t.32.41.4 r.55 r.56 = Q1 Small:Einval [32 -1 41 0200200001000000000000000800000001000000020000000000000061000000]
n.3072.9 e.256.41.4 e.256.41.4.abc e.64.41.4.abc e.128.41.4.abcd r.111 r.116 r.24 = Q1 Q2 M2 Q3 [256 -1 41 0200200001000000000000000800000001000000040000000000000061000000] [320 -1 41 0200200001000000000000000800000001000000040000000000000061626300][128 -1 41 020024000100000000000000080000000100000004000000000000006162636400000000] Again:Eagain
n.512.9 e.256.41.4 f.256.41.4 r.104 = Q1 Q2 [256 -1 41 01001c00010000000000000008000000010000000400000000000000][1073742080 -1 41 01001c00010000000000000008000000010000000400000000000000]
n.512.1 t.32.41.4 t.32.41.5 r.75 r.23 r.24 = Q1 O2 [32 -1 41 01001c00010000000000000008000000010000000400000000000000] Small:Einval [16384 -1 0]
n.512.9 p.65536.41.4 q.1 r.52 w.0.1 w.4294967295.1 q.1 c q.1 = Q1 wait [65536 -1 41 01001c00010000000000000008000000010000000400000000000000] NotPending:Enoent NotPending:Enoent wait ok shut
";

#[test]
fn histories_come_out_as_worked_out(rt: HostRuntime) -> Result<(), Fail> {
    for line in HISTORIES.lines() {
        let Some((history, wanted)) = line.split_once(" = ") else {
            continue;
        };
        let outcomes = play(rt.alloc(), history)?;
        assert_eq!(rt; outcomes.as_str(), wanted, "at {history}");
    }
    Ok(())
}

#[test]
fn events_by_handles_come_out_as_worked_out(rt: HostRuntime) -> Result<(), Fail> {
    for line in BY_HANDLES.lines() {
        let Some((history, wanted)) = line.split_once(" = ") else {
            continue;
        };
        let outcomes = play(rt.alloc(), history)?;
        assert_eq!(rt; outcomes.as_str(), wanted, "at {history}");
    }
    Ok(())
}

#[test]
fn events_that_wait_are_answered_in_any_order(rt: HostRuntime) -> Result<(), Fail> {
    let history =
        "n.4.9 p.65536.50.4 p.65536.51.5 p.65536.52.6 r.72 w.2.1 w.1.2 w.0.1 q.1 q.2 q.3 w.1.1";
    let outcomes = play(rt.alloc(), history)?;
    let wanted =
        "Q1 Q2 Q3 [65536 0 50][65536 1 51][65536 2 52] A3 A2 A1 allow deny allow NotPending:Enoent";
    assert_eq!(rt; outcomes.as_str(), wanted);
    Ok(())
}

#[test]
fn an_event_takes_no_response_before_it_is_read(rt: HostRuntime) -> Result<(), Fail> {
    let history = "n.4.9 p.65536.50.4 t.32.41.4 p.65536.51.5 r.48 w.2.1 w.0.1 r.24 w.2.1 q.3";
    let outcomes = play(rt.alloc(), history)?;
    let wanted = "Q1 Q2 Q3 [65536 0 50][32 1 41] NotPending:Enoent A1 [65536 2 51] A3 allow";
    assert_eq!(rt; outcomes.as_str(), wanted);
    Ok(())
}

#[test]
fn after_a_close_nothing_waits_and_verdicts_stay(rt: HostRuntime) -> Result<(), Fail> {
    let history =
        "n.4.9 p.65536.50.4 p.65536.51.5 p.65536.52.6 r.48 w.1.2 q.1 c w.0.1 q.1 q.2 q.3 q.2";
    let outcomes = play(rt.alloc(), history)?;
    let wanted = "Q1 Q2 Q3 [65536 0 50][65536 1 51] A2 wait ok Closed:Ebadf shut deny shut shut";
    assert_eq!(rt; outcomes.as_str(), wanted);
    Ok(())
}

// The example of the crate's documentation.
#[test]
#[tactic(auto, unfolding(crate::specs::ListenerState::new_listener))]
fn a_permission_event_is_read_and_allowed(rt: HostRuntime) -> Result<(), Fail> {
    let alloc = rt.alloc();
    let happening = at_file(FAN_OPEN_PERM, 4);
    let content = init_words(0x4)?; // FAN_CLASS_CONTENT
    let mut listener = Listener::new(alloc, content, 16_384)?;
    let event = event_for(
        alloc,
        content,
        &happening,
        b"a",
        FAN_OPEN_PERM,
        41,
        41,
        true,
    )?;
    let put = listener.ask(event)?;
    let record = listener.read(4096)?;
    let answered = listener.write(&[0, 0, 0, 0, 1, 0, 0, 0])?;
    let entry = answered.entry;
    assert_eq!(rt; record.len(), 24);
    assert_eq!(rt; put, Put::Queued { entry });
    assert_eq!(rt; listener.answer_of(entry), Answer::Allowed);
    Ok(())
}

// The outcomes of a history.
fn play(alloc: Global, history: &str) -> Result<String, NoMemory> {
    let mut out = String::new(alloc);
    let mut words = history.split(' ');
    let word = words.next().unwrap_or("");
    let mut parts = word.split('.');
    let _ = parts.next();
    let flags = number(parts.next());
    let limit = number(parts.next());
    let Ok(init) = init_words(flags) else {
        return Ok(out);
    };
    if limit < 1 || limit > 16_384 {
        return Ok(out);
    }
    let mut listener = Listener::new(alloc, init, limit)?;
    for word in words {
        if !out.is_empty() {
            out.push(' ')?;
        }
        play_word(alloc, &mut listener, word, &mut out)?;
    }
    Ok(out)
}

// A number of a word, or 0 where there is none.
fn number(part: Option<&str>) -> u32 {
    match part {
        Some(text) => text.parse::<u32>().unwrap_or(0),
        None => 0,
    }
}

// Plays one word and shows its outcome.
fn play_word(
    alloc: Global,
    listener: &mut Listener,
    word: &str,
    out: &mut String,
) -> Result<(), NoMemory> {
    let mut parts = word.split('.');
    let kind = parts.next().unwrap_or("");
    let a = number(parts.next());
    let b = number(parts.next());
    let c = number(parts.next());
    let name = parts.next().unwrap_or("a").as_bytes();
    if listener.entries_made() > 1000 || listener.fds_given() > 1000 || !is_name(name) {
        return Ok(());
    }
    if let Some(happening) = happening(kind, a, c) {
        return play_event(alloc, listener, happening, name, b, kind == "p", out);
    }
    match kind {
        "r" => show_read(listener.read(a), out),
        "w" => show_written(listener.write(&response(a, b)[..8]), out),
        "s" => show_written(listener.write(&response(a, b)[..(c as usize).min(9)]), out),
        "q" => show_answer(listener.answer_of(u64::from(a)), out),
        _ => {
            listener.close();
            out.push_str("ok")?;
            Ok(())
        }
    }
}

// What a word lets happen, if it is one of an event.
fn happening(kind: &str, bits: u32, inode: u32) -> Option<Happening> {
    let happening = at_file(bits, inode);
    match kind {
        "t" | "p" => Some(happening),
        "d" => Some(on_directory(happening)),
        "m" => Some(on_other_mount(happening)),
        "e" => Some(on_entry(happening)),
        "f" => Some(on_directory(on_entry(happening))),
        _ => None,
    }
}

// Puts an event on the queue that a process makes in its thread with a number 100 greater.
fn play_event(
    alloc: Global,
    listener: &mut Listener,
    happening: Happening,
    name: &[u8],
    pid: u32,
    perm: bool,
    out: &mut String,
) -> Result<(), NoMemory>
    requires name { IsName name.now }
    requires entries { listener.old.next_entry ≤ 2 ^ 31 }
{
    let init = listener.init();
    let tid = pid.saturating_add(100);
    let event = event_for(
        alloc,
        init,
        &happening,
        name,
        happening.bits,
        pid,
        tid,
        perm,
    )?;
    let put = if perm {
        listener.ask(event)?
    } else {
        listener.tell(event)?
    };
    show_put(put, out)
}

// What happens to a file.
fn at_file(bits: u32, inode: u32) -> Happening {
    let place = Place {
        mount: 3,
        fs: 1,
        inode,
        parent: Some(2),
        dir: false,
    };
    Happening {
        place,
        bits,
        ondir: false,
        entry: false,
    }
}

fn on_directory(happening: Happening) -> Happening {
    Happening {
        ondir: true,
        ..happening
    }
}

fn on_entry(happening: Happening) -> Happening {
    let place = Place {
        dir: true,
        ..happening.place
    };
    Happening {
        place,
        entry: true,
        ..happening
    }
}

fn on_other_mount(happening: Happening) -> Happening {
    let place = Place {
        mount: 4,
        ..happening.place
    };
    Happening { place, ..happening }
}

// A response with one byte more than it should have.
fn response(fd: u32, value: u32) -> [u8; 9] {
    let [f0, f1, f2, f3] = fd.to_le_bytes();
    let [v0, v1, v2, v3] = value.to_le_bytes();
    [f0, f1, f2, f3, v0, v1, v2, v3, 0]
}

fn show_put(put: Put, out: &mut String) -> Result<(), NoMemory> {
    match put {
        Put::Queued { entry } => write!(out, "Q{entry}")?,
        Put::Merged { entry } => write!(out, "M{entry}")?,
        Put::Overflow { entry } => write!(out, "O{entry}")?,
        Put::Closed => out.push_str("C")?,
    }
    Ok(())
}

fn show_read(read: Result<Vec<u8>, ReadRefused>, out: &mut String) -> Result<(), NoMemory> {
    match read {
        Ok(bytes) => show_records(&bytes, out),
        Err(why) => match why.errno() {
            Some(errno) => {
                write!(out, "{why:?}:{errno:?}")?;
                Ok(())
            }
            None => Err(NoMemory),
        },
    }
}

// Records one after the other, each of which begins with its length.
fn show_records(bytes: &[u8], out: &mut String) -> Result<(), NoMemory> {
    let mut rest = bytes;
    for _ in 0..bytes.len() {
        if rest.is_empty() {
            break;
        }
        if rest.len() < 24 {
            out.push_str("no record")?;
            return Ok(());
        }
        let len = u32::from_le_bytes([rest[0], rest[1], rest[2], rest[3]]) as usize;
        if len < 24 || len > rest.len() {
            out.push_str("no record")?;
            return Ok(());
        }
        show_record(&rest[..len], out)?;
        rest = &rest[len..];
    }
    Ok(())
}

// The mask, the descriptor, the process and the information records of a record whose other fields
// are as they should be.
fn show_record(event: &[u8], out: &mut String) -> Result<(), NoMemory>
    requires { 24 ≤ length event.now }
{
    if event[4..8] != [3, 0, 24, 0] || event[12..16] != [0; 4] {
        out.push_str("no record")?;
        return Ok(());
    }
    let mask = u32::from_le_bytes([event[8], event[9], event[10], event[11]]);
    let fd = i32::from_le_bytes([event[16], event[17], event[18], event[19]]);
    let pid = u32::from_le_bytes([event[20], event[21], event[22], event[23]]);
    write!(out, "[{mask} {fd} {pid}")?;
    if event.len() > 24 {
        out.push(' ')?;
    }
    for byte in &event[24..] {
        write!(out, "{byte:02x}")?;
    }
    out.push(']')?;
    Ok(())
}

fn show_written(written: Result<Answered, WriteRefused>, out: &mut String) -> Result<(), NoMemory> {
    match written {
        Ok(answered) => {
            let entry = answered.entry;
            write!(out, "A{entry}")?;
        }
        Err(why) => {
            let errno = why.errno();
            write!(out, "{why:?}:{errno:?}")?;
        }
    }
    Ok(())
}

fn show_answer(answer: Answer, out: &mut String) -> Result<(), NoMemory> {
    out.push_str(match answer {
        Answer::Waiting => "wait",
        Answer::Allowed => "allow",
        Answer::Denied => "deny",
        Answer::Closed => "shut",
    })?;
    Ok(())
}
