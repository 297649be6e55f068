// The script of some seeds, and a summary.
ghost use Rattle.std.specs.Prelude.{◌<◌, length};

use fan_bits::Errno;
use fan_bulk::{Generator, Rounds, Summary, opening};
use fan_io::Items;
use fan_script::{Line, Outcomes, Reply, StepOutcome, read_line};
use std::alloc::Global;
use std::test::Fail;

const OPENING: &str =
    "limit 64|mkdir /d|mkfile /d/0|mkfile /d/1|mkfile /d/2|mkfile /d/3|mkfile /d/4|\
    mkfile /d/5|mkfile /d/6|mkfile /d/7|mkfile /d/8|mkfile /d/9|init 8|init 4|init 0|\
    mark 1 1 8010000 /d|mark 2 1 8010000 /d|mark 3 1 800003a /d";

// A seed, and the lines of its first two rounds, worked out by a script in another language, which draws
// by `x = (x * 6364136223846793005 + 1442695040888963407) % 2**64; x // 2**33 % k`. The kinds of the
// rounds are 7 and 4, 5 and 1, and 0 and 3.
const ROUNDS: [(u64, &str, &str); 3] = [
    (0, "read 3 65536|grace", "begin 2 105 105 write /d/5|run 2"),
    (
        13,
        "mark 3 1 20 /d/1",
        "begin 2 104 104 open /d/4|run 2|read 1 4096|write 1 0000000001000000|run 2|\
        read 2 4096|write 2 0000000001000000|run 2",
    ),
    (
        147,
        "begin 1 108 108 open /d/8|run 1|read 1 4096|write 1 0000000001000000|run 1|\
        read 2 4096|write 2 0000000001000000|run 1",
        "begin 2 102 102 open /d/2|run 2|read 1 4096|write 1 0100000002000000|run 2",
    ),
];

// Whether the lines are those of the text, which has a bar between each two.
fn are_lines(alloc: Global, lines: &[Line], text: &str) -> Result<bool, Fail> {
    let mut wanted = Vec::new(alloc);
    for bytes in text.split('|') {
        match read_line(alloc, bytes.as_bytes()) {
            Ok(line) => wanted.push(line)?,
            Err(_) => return Ok(false),
        }
    }
    let lines = format!(in alloc; "{lines:?}")?;
    let wanted = format!(in alloc; "{wanted:?}")?;
    Ok(lines == wanted)
}

#[test]
fn the_first_draws_of_seed_1(rt: HostRuntime) -> Result<(), Fail> {
    // The states are 7806831264735756412, 9396908728118811419 and 11960119808228829710; divided by 2^33 they
    // are 908834774, 1093944153 and 1392341196.
    let mut generator = Generator { state: 1 };
    assert_eq!(rt; generator.draw(8), 6);
    assert_eq!(rt; generator.draw(10), 3);
    assert_eq!(rt; generator.draw(8), 4);
    assert_eq!(rt; generator.state, 11_960_119_808_228_829_710);
    Ok(())
}

#[test]
fn the_opening_has_18_lines(rt: HostRuntime) -> Result<(), Fail> {
    let lines = opening(rt.alloc())?;
    assert_eq!(rt; lines.len(), 18);
    assert!(rt; are_lines(rt.alloc(), &lines, OPENING)?);
    Ok(())
}

#[test]
fn rounds_have_the_lines_of_their_kind(rt: HostRuntime) -> Result<(), Fail> {
    for (seed, first, second) in ROUNDS {
        let mut rounds = Rounds::new(seed);
        let lines = rounds.next_lines(rt.alloc())?;
        assert!(rt; are_lines(rt.alloc(), &lines, first)?, "{first}");
        let lines = rounds.next_lines(rt.alloc())?;
        assert!(rt; are_lines(rt.alloc(), &lines, second)?, "{second}");
    }
    let lines = Rounds::new(1).next_lines(rt.alloc())?;
    assert!(rt; are_lines(rt.alloc(), &lines, "mark 3 2 20 /d/3")?);
    Ok(())
}

// The summary of three lines with these replies.
#[tactic(auto, unfolding(fan_bulk::specs::Summary::summary))]
fn summary_of(replies: &[Reply]) -> Summary
    requires { length replies.now < 100 }
{
    let mut summary = Summary::new();
    summary.count_line();
    summary.count_line();
    summary.count_line();
    for reply in replies {
        summary.count(reply);
    }
    summary
}

// A reply that tells what a single step did.
fn out(outcome: StepOutcome) -> Reply {
    Reply::Out(Outcomes::one(outcome))
}

#[test]
fn summaries_count_replies(rt: HostRuntime) -> Result<(), Fail> {
    let replies = vec![in rt.alloc();
        Reply::Done,
        Reply::Refused(Errno::Einval),
        Reply::Bytes(Items::from_vec(b"\x18\0\0".to_vec(rt.alloc())?)),
        Reply::Reclaimed(u64::MAX),
        Reply::Reclaimed(2),
        out(StepOutcome::Asked(1)),
        out(StepOutcome::Blocked(1)),
        out(StepOutcome::Allowed(1)),
        out(StepOutcome::Allowed(2)),
        out(StepOutcome::Done),
        out(StepOutcome::Denied(1)),
        out(StepOutcome::Closed(2)),
        out(StepOutcome::Full(2)),
        out(StepOutcome::Queued(1)),
        out(StepOutcome::Merged(2)),
        out(StepOutcome::Overflow(3)),
    ]?;
    let mut text = Vec::new(rt.alloc());
    summary_of(&replies).write(&mut text)?;
    let wanted: &[u8] = b"lines 3\nasked 1\nallowed 2\ndenied 1\ntold 3\nread 3\n\
        reclaimed 18446744073709551617\nrefused 1\n";
    assert_eq!(rt; str::from_utf8(&text), str::from_utf8(wanted));
    Ok(())
}
