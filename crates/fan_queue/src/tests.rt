// A queue of each limit, played through one list of puts and takes over twelve keys.
ghost use Rattle.fan_event.specs.Names.{IsName};

use super::cells::{group_index, tag_of};
use super::*;
use fan_event::{Event, Name, Target, key_hash};
use fan_io::NoMemory;
use std::alloc::Global;
use std::fmt::Write;
use std::test::Fail;

// A line is a row of calls, ' = ' and what they answer, worked out by a plain search of a list. A small
// letter puts an event with its key, a capital one a permission event with that key, and '-' takes an entry.
// The bits of the events in a row are 1, 2, 4, 8, 16, 1 and so on. Queued, merged and overflow are shown as
// Q, M and O with the number of the entry, an entry that is taken as T with its number and its bits, the lost
// entry as L, and nothing to take as '.'.
const ONE: &str = "\
abcdefghijklabc = Q1 O2 O2 O2 O2 O2 O2 O2 O2 O2 O2 O2 O2 O2 O2
defghijklAabBb- = O2 O2 O2 O2 O2 O2 O2 O2 O2 O2 O2 O2 O2 O2 T1.1
Albdeegb-a-cddc = O2 O2 O2 O2 O2 O2 O2 O2 L2 Q3 T3.16 Q4 O5 O5 O5
---a-j-d-jb---- = T4.2 L5 . Q6 T6.8 Q7 T7.1 Q8 T8.4 Q9 O10 T9.16 L10 . .
eb-d-jjj-k-jD-i = Q11 O12 T11.1 O12 L12 Q13 O14 O14 T13.1 O14 L14 Q15 O16 T15.2 O16
-hg--e-eji-b-kj = L16 Q17 O18 T17.2 L18 Q19 T19.1 Q20 O21 O21 T20.4 O21 L21 Q22 O23
-DbhaFc-Hkicafa = T22.8 O23 O23 O23 O23 O23 O23 L23 Q24 O25 O25 O25 O25 O25 O25
-h-CbflcfKbgaj- = T24.8 O25 L25 Q26 O27 O27 O27 O27 O27 O27 O27 O27 O27 O27 T26.8
G-B-----l--b--- = O27 L27 Q28 T28.4 . . . . Q29 T29.8 . Q30 T30.2 . .
--bjh--Ki-khfE- = . . Q31 O32 O32 T31.4 L32 Q33 O34 T33.4 O34 O34 O34 O34 L34
-dg-d--aeb----h = . Q35 O36 T35.2 O36 L36 . Q37 O38 O38 T37.4 L38 . . Q39
ljbeaeej--aeCk- = O40 O40 O40 O40 O40 O40 O40 O40 T39.16 L40 Q41 O42 O42 O42 T41.1
-kbde--l--iicLb = L42 Q43 O44 O44 O44 T43.2 L44 Q45 T45.4 . Q46 O47 O47 O47 O47
-g--A--f-D-kb-b = T46.1 O47 L47 . Q48 T48.16 . Q49 T49.4 Q50 T50.16 Q51 O52 T51.2 O52
";

const TWO: &str = "\
abcdefghijklabc = Q1 Q2 O3 O3 O3 O3 O3 O3 O3 O3 O3 O3 O3 O3 O3
defghijklAabBb- = O3 O3 O3 O3 O3 O3 O3 O3 O3 O3 O3 O3 O3 O3 T1.1
Albdeegb-a-cddc = O3 O3 O3 O3 O3 O3 O3 O3 T2.2 Q4 L3 Q5 O6 O6 O6
---a-j-d-jb---- = T4.16 T5.2 L6 Q7 T7.8 Q8 T8.1 Q9 T9.4 Q10 Q11 T10.16 T11.1 . .
eb-d-jjj-k-jD-i = Q12 Q13 T12.1 Q14 T13.2 Q15 O16 O16 T14.8 O16 T15.1 Q17 O16 L16 Q18
-hg--e-eji-b-kj = T17.2 Q19 O20 T18.16 T19.2 Q21 L20 M21 Q22 O23 T21.5 O23 T22.8 Q24 O23
-DbhaFc-Hkicafa = L23 Q25 O26 O26 O26 O26 O26 T24.8 O26 O26 O26 O26 O26 O26 O26
-h-CbflcfKbgaj- = T25.2 Q27 L26 Q28 O29 O29 O29 O29 O29 O29 O29 O29 O29 O29 T27.2
G-B-----l--b--- = O29 T28.8 Q30 L29 T30.4 . . . Q31 T31.8 . Q32 T32.2 . .
--bjh--Ki-khfE- = . . Q33 Q34 O35 T33.4 T34.8 Q36 O35 L35 Q37 O38 O38 O38 T36.4
-dg-d--aeb----h = T37.1 Q39 O38 L38 M39 T39.18 . Q40 Q41 O42 T40.4 T41.8 L42 . Q43
ljbeaeej--aeCk- = Q44 O45 O45 O45 O45 O45 O45 O45 T43.16 T44.1 Q46 O45 O45 O45 L45
-kbde--l--iicLb = T46.1 Q47 Q48 O49 O49 T47.2 T48.4 Q50 L49 T50.4 Q51 M51 Q52 O53 O53
-g--A--f-D-kb-b = T51.3 O53 T52.4 L53 Q54 T54.16 . Q55 T55.4 Q56 T56.16 Q57 Q58 T57.2 M58
";

const THREE: &str = "\
abcdefghijklabc = Q1 Q2 Q3 O4 O4 O4 O4 O4 O4 O4 O4 O4 O4 O4 O4
defghijklAabBb- = O4 O4 O4 O4 O4 O4 O4 O4 O4 O4 O4 O4 O4 O4 T1.1
Albdeegb-a-cddc = O4 O4 O4 O4 O4 O4 O4 O4 T2.2 Q5 T3.4 Q6 O4 O4 O4
---a-j-d-jb---- = L4 T5.16 T6.2 Q7 T7.8 Q8 T8.1 Q9 T9.4 Q10 Q11 T10.16 T11.1 . .
eb-d-jjj-k-jD-i = Q12 Q13 T12.1 Q14 T13.2 Q15 M15 M15 T14.8 Q16 T15.7 Q17 Q18 T16.16 Q19
-hg--e-eji-b-kj = T17.2 Q20 O21 T18.4 T19.16 Q22 T20.2 M22 Q23 O21 L21 Q24 T22.5 Q25 O26
-DbhaFc-Hkicafa = T23.8 O26 O26 O26 O26 O26 O26 T24.2 Q27 O26 O26 O26 O26 O26 O26
-h-CbflcfKbgaj- = T25.8 Q28 L26 Q29 O30 O30 O30 O30 O30 O30 O30 O30 O30 O30 T27.8
G-B-----l--b--- = O30 T28.2 Q31 T29.8 L30 T31.4 . . Q32 T32.8 . Q33 T33.2 . .
--bjh--Ki-khfE- = . . Q34 Q35 Q36 T34.4 T35.8 Q37 Q38 T36.16 Q39 O40 O40 O40 T37.4
-dg-d--aeb----h = T38.8 Q41 O40 T39.1 M41 L40 T41.18 Q42 Q43 Q44 T42.4 T43.8 T44.16 . Q45
ljbeaeej--aeCk- = Q46 Q47 O48 O48 O48 O48 O48 O48 T45.16 T46.1 Q49 O48 O48 O48 T47.2
-kbde--l--iicLb = L48 Q50 Q51 O52 O52 T49.1 T50.2 Q53 T51.4 L52 Q54 M54 Q55 O56 O56
-g--A--f-D-kb-b = T53.4 O56 T54.3 T55.4 Q57 L56 T57.16 Q58 T58.4 Q59 T59.16 Q60 Q61 T60.2 M61
";

const MANY: &str = "\
abcdefghijklabc = Q1 Q2 Q3 Q4 Q5 Q6 Q7 Q8 Q9 Q10 Q11 Q12 M1 M2 M3
defghijklAabBb- = M4 M5 M6 M7 M8 M9 M10 M11 M12 Q13 M1 M2 Q14 M2 T1.5
Albdeegb-a-cddc = Q15 M12 M2 M4 M5 M5 M7 M2 T2.14 Q16 T3.20 Q17 M4 M4 M17
---a-j-d-jb---- = T4.13 T5.19 T6.5 M16 T7.10 M10 T8.20 Q18 T9.9 M10 Q19 T10.19 T11.5 T12.10 T13.16
eb-d-jjj-k-jD-i = Q20 M19 T14.4 M18 T15.1 Q21 M21 M21 T16.24 Q22 T17.18 M21 Q23 T18.12 Q24
-hg--e-eji-b-kj = T19.3 Q25 Q26 T20.1 T21.7 Q27 T22.16 M27 Q28 M24 T23.4 Q29 T24.16 Q30 M28
-DbhaFc-Hkicafa = T25.2 Q31 M29 Q32 Q33 Q34 Q35 T26.4 Q36 M30 Q37 M35 M33 Q38 M33
-h-CbflcfKbgaj- = T27.5 M32 T28.24 Q39 M29 M38 Q40 M35 M38 Q41 M29 Q42 M33 Q43 T29.23
G-B-----l--b--- = Q44 T30.24 Q45 T31.2 T32.10 T33.20 T34.1 T35.6 M40 T36.8 T37.1 Q46 T38.9 T39.8 T40.10
--bjh--Ki-khfE- = T41.16 T42.2 M46 M43 Q47 T43.8 T44.1 Q48 Q49 T45.4 Q50 M47 Q51 Q52 T46.6
-dg-d--aeb----h = T47.18 Q53 Q54 T48.4 M53 T49.8 T50.1 Q55 Q56 Q57 T51.4 T52.8 T53.18 T54.4 Q58
ljbeaeej--aeCk- = Q59 Q60 M57 M56 M55 M56 M56 M60 T55.20 T56.11 Q61 Q62 Q63 Q64 T57.20
-kbde--l--iicLb = T58.16 M64 Q65 Q66 M62 T59.1 T60.6 Q67 T61.1 T62.18 Q68 M68 Q69 Q70 M65
-g--A--f-D-kb-b = T63.4 Q71 T64.10 T65.20 Q72 T66.8 T67.4 Q73 T68.3 Q74 T69.4 Q75 Q76 T70.8 M76
";

// What a queue answers to 36 events whose keys all belong to one group of cells, of which most are spilled.
// Each is put twice, the first half of them is taken, each is put again, and then all are taken.
const CROWDED: &str = "\
Q1 Q2 Q3 Q4 Q5 Q6 Q7 Q8 Q9 Q10 Q11 Q12 Q13 Q14 Q15 Q16 Q17 Q18 \
Q19 Q20 Q21 Q22 Q23 Q24 Q25 Q26 Q27 Q28 Q29 Q30 Q31 Q32 Q33 Q34 Q35 Q36 \
M1 M2 M3 M4 M5 M6 M7 M8 M9 M10 M11 M12 M13 M14 M15 M16 M17 M18 \
M19 M20 M21 M22 M23 M24 M25 M26 M27 M28 M29 M30 M31 M32 M33 M34 M35 M36 \
T1.3 T2.3 T3.3 T4.3 T5.3 T6.3 T7.3 T8.3 T9.3 \
T10.3 T11.3 T12.3 T13.3 T14.3 T15.3 T16.3 T17.3 T18.3 \
Q37 Q38 Q39 Q40 Q41 Q42 Q43 Q44 Q45 Q46 Q47 Q48 Q49 Q50 Q51 Q52 Q53 Q54 \
M19 M20 M21 M22 M23 M24 M25 M26 M27 M28 M29 M30 M31 M32 M33 M34 M35 M36 \
T19.7 T20.7 T21.7 T22.7 T23.7 T24.7 T25.7 T26.7 T27.7 \
T28.7 T29.7 T30.7 T31.7 T32.7 T33.7 T34.7 T35.7 T36.7 \
T37.4 T38.4 T39.4 T40.4 T41.4 T42.4 T43.4 T44.4 T45.4 \
T46.4 T47.4 T48.4 T49.4 T50.4 T51.4 T52.4 T53.4 T54.4 . ";

#[test]
fn events_of_one_group_of_cells_are_found(rt: HostRuntime) -> Result<(), Fail> {
    let inodes = crowd(rt.alloc())?;
    let mut queue = Queue::new(rt.alloc(), None);
    let mut out = String::new(rt.alloc());
    put_each(&mut queue, &inodes, 1, &mut out)?;
    put_each(&mut queue, &inodes, 2, &mut out)?;
    take_some(&mut queue, 18, &mut out)?;
    put_each(&mut queue, &inodes, 4, &mut out)?;
    take_some(&mut queue, 37, &mut out)?;
    assert_eq!(rt; out.as_str(), CROWDED);
    Ok(())
}

#[test]
fn puts_and_takes_answer_as_a_plain_search_does(rt: HostRuntime) -> Result<(), Fail> {
    for (limit, history) in [(1, ONE), (2, TWO), (3, THREE), (16_384, MANY)] {
        let mut queue = Queue::new(rt.alloc(), Some(limit));
        for line in history.lines() {
            let Some((calls, wanted)) = line.split_once(" = ") else {
                continue;
            };
            let answers = play(&mut queue, calls, rt.alloc())?;
            assert_eq!(rt; answers.as_str(), wanted, "at limit {limit}");
        }
    }
    Ok(())
}

#[test]
fn a_queue_is_looked_at_and_emptied(rt: HostRuntime) -> Result<(), Fail> {
    let mut queue = Queue::new(rt.alloc(), None);
    assert!(rt; queue.is_empty());
    let answers = play(&mut queue, "abBa", rt.alloc())?;
    assert_eq!(rt; answers.as_str(), "Q1 Q2 Q3 M1");
    assert_eq!(rt; queue.len(), 3);
    assert_eq!(rt; queue.front().map(|entry| entry.number), Some(1));
    assert_eq!(rt; queue.get(2).map(|entry| entry.number), Some(3));
    assert!(rt; queue.get(3).is_none());
    queue.clear();
    assert!(rt; queue.take().is_none());
    assert_eq!(rt; queue.next_entry(), 4);
    Ok(())
}

// The answers of a row of calls.
fn play(queue: &mut Queue, calls: &str, alloc: Global) -> Result<String, NoMemory> {
    let mut out = String::new(alloc);
    for (index, call) in calls.bytes().enumerate() {
        if index > 0 {
            out.push(' ')?;
        }
        if call == b'-' {
            show_taken(queue.take(), &mut out)?;
        } else if queue.next_entry() < 1_000 {
            let bits = 1u32 << (index % 5);
            show_put(queue.put(event(call, bits, alloc)?)?, &mut out)?;
        }
    }
    Ok(out)
}

// The first 36 inodes whose events belong to the first of 64 groups, and so to the first of fewer.
fn crowd(alloc: Global) -> Result<Vec<u32>, NoMemory> {
    let mut inodes = Vec::new(alloc);
    for inode in 1..4_000 {
        let tag = tag_of(key_hash(&opened(inode, 0)));
        if inodes.len() < 36 && group_index(tag, 64) == 0 {
            inodes.push(inode)?;
        }
    }
    Ok(inodes)
}

// An event of an inode.
fn opened(inode: u32, bits: u32) -> Event {
    Event {
        bits,
        ondir: false,
        who: 41,
        perm: false,
        target: Target::Fd { mount: 3, inode },
    }
}

fn put_each(
    queue: &mut Queue,
    inodes: &[u32],
    bits: u32,
    out: &mut String,
) -> Result<(), NoMemory> {
    for inode in inodes {
        if queue.next_entry() < 1_000 {
            show_put(queue.put(opened(*inode, bits))?, out)?;
            out.push(' ')?;
        }
    }
    Ok(())
}

fn take_some(queue: &mut Queue, count: u32, out: &mut String) -> Result<(), NoMemory> {
    for _ in 0..count {
        show_taken(queue.take(), out)?;
        out.push(' ')?;
    }
    Ok(())
}

// An event with the key of a letter.
fn event(letter: u8, bits: u32, alloc: Global) -> Result<Event, NoMemory> {
    let key = letter.to_ascii_lowercase();
    Ok(Event {
        bits,
        ondir: key % 2 == 1,
        who: 41 + u32::from(key / 2 % 2),
        perm: letter.is_ascii_uppercase(),
        target: target(key, alloc)?,
    })
}

// The object of a key: those up to 'h' are reported by descriptors, the others by handles with names.
fn target(key: u8, alloc: Global) -> Result<Target, NoMemory> {
    if key <= b'h' {
        return Ok(Target::Fd {
            mount: 3,
            inode: 4 + u32::from(key / 4 % 2),
        });
    }
    Ok(Target::Handle {
        fs: 1,
        object: None,
        dir: Some(2),
        name: Some(Name::of(alloc, &[key])?),
    })
}

fn show_put(put: Put, out: &mut String) -> Result<(), NoMemory> {
    match put {
        Put::Queued { entry } => write!(out, "Q{entry}")?,
        Put::Merged { entry } => write!(out, "M{entry}")?,
        Put::Overflow { entry } => write!(out, "O{entry}")?,
        Put::Closed => out.push_str("C")?,
    }
    Ok(())
}

fn show_taken(taken: Option<Entry>, out: &mut String) -> Result<(), NoMemory> {
    let Some(Entry { number, body }) = taken else {
        out.push('.')?;
        return Ok(());
    };
    match body {
        Body::Told(event) => write!(out, "T{number}.{}", event.bits)?,
        Body::Lost => write!(out, "L{number}")?,
    }
    Ok(())
}
