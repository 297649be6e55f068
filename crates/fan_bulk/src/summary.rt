// What is counted in the replies to a script, and how it is written.
ghost use Rattle.std.specs.Prelude.{◌≡◌, ◌+◌, ◌-◌, ◌<◌, ◌^◌, ◌++◌, [], OnOk};
ghost use Rattle.std.specs.Fmt.{decimal};
ghost use Rattle.std.specs.List.{count_by};
ghost use Rattle.fan_bulk.specs.Summary.{AreSmall, count_text, is_allowed, is_asked, is_denied, is_told, summary, summary_text, with_line, with_outcomes, with_reply};

use fan_io::NoMemory;
use fan_print::print_text;
use fan_script::{Reply, StepOutcome};
use itoa::Buffer;
use std::marker::Model;

// How many groups were asked.
fn asked(outcomes: &[StepOutcome]) -> usize
    ensures { result ≡ count_by is_asked outcomes.now }
{
    outcomes
        .iter()
        .filter(|outcome| matches!(outcome, StepOutcome::Asked(_)))
        .count()
}

// How many groups allowed.
fn allowed(outcomes: &[StepOutcome]) -> usize
    ensures { result ≡ count_by is_allowed outcomes.now }
{
    outcomes
        .iter()
        .filter(|outcome| matches!(outcome, StepOutcome::Allowed(_)))
        .count()
}

// How many groups denied.
fn denied(outcomes: &[StepOutcome]) -> usize
    ensures { result ≡ count_by is_denied outcomes.now }
{
    outcomes
        .iter()
        .filter(|outcome| matches!(outcome, StepOutcome::Denied(_)))
        .count()
}

// Whether a group was told.
fn is_told(outcome: StepOutcome) -> bool
    ensures { result ≡ is_told outcome }
{
    matches!(
        outcome,
        StepOutcome::Queued(_) | StepOutcome::Merged(_) | StepOutcome::Overflow(_)
    )
}

// How many groups were told.
fn told(outcomes: &[StepOutcome]) -> usize
    ensures { result ≡ count_by is_told outcomes.now }
{
    outcomes.iter().filter(|outcome| is_told(**outcome)).count()
}

// Puts a word and a count at the end, as a line.
#[tactic(auto, using(std::proofs::Common::append_assoc))]
fn print_count(out: &mut Vec<u8>, word: &str, count: u128) -> Result<(), NoMemory>
    ensures { OnOk result (out.new.items ≡ out.old.items ++ count_text word.now count) }
{
    let mut buffer = Buffer::new();
    print_text(out, word)?;
    print_text(out, " ")?;
    print_text(out, buffer.format(count))?;
    print_text(out, "\n")
}

// What is counted: lines, answers of single steps, bytes that were read, marks that were reclaimed and
// replies that are an errno; and how many replies there were.
#[derive(Clone, Copy, Debug, PartialEq, Eq)]
pub(crate) struct Counts {
    pub(crate) lines: u64,
    pub(crate) asked: u128,
    pub(crate) allowed: u128,
    pub(crate) denied: u128,
    pub(crate) told: u128,
    pub(crate) read: u128,
    pub(crate) reclaimed: u128,
    pub(crate) refused: u128,
    pub(crate) replies: u32,
}

impl Counts {
    // Counts what single steps of an access did.
    fn add_outcomes(&mut self, outcomes: &[StepOutcome])
        requires replies { self.old.replies < 2 ^ 32 - 1 }
        requires small { AreSmall self.old }
        ensures { self.new ≡ with_outcomes self.old outcomes.now }
    {
        self.asked += asked(outcomes) as u128;
        self.allowed += allowed(outcomes) as u128;
        self.denied += denied(outcomes) as u128;
        self.told += told(outcomes) as u128;
    }

    // Counts what a reply tells.
    #[tactic(auto, unfolding(crate::specs::Summary::with_reply))]
    fn add(&mut self, reply: &Reply)
        requires replies { self.old.replies < 2 ^ 32 - 1 }
        requires small { AreSmall self.old }
        ensures counts { self.new ≡ with_reply self.old reply.now }
        ensures lines { self.new.lines ≡ self.old.lines }
        ensures replies { self.new.replies ≡ self.old.replies + 1 }
        ensures small { AreSmall self.new }
    {
        match reply {
            Reply::Out(outcomes) => self.add_outcomes(outcomes.as_slice()),
            Reply::Bytes(bytes) => self.read += bytes.len() as u128,
            Reply::Reclaimed(marks) => self.reclaimed += u128::from(*marks),
            Reply::Refused(_) => self.refused += 1,
            _ => {}
        }
        self.replies += 1;
    }
}

/// What is counted in the replies to a script: docs/FORMATS.md has the lines of its summary at `bulk`. A
/// count is a sum of numbers below 2^64, of which there are less than 2^32, so that none wraps.
#[derive(Debug, Drop)]
pub struct Summary {
    counts: Counts,
}

impl Model for Summary {
    ghost use Rattle.fan_bulk.specs.declared.summary.Counts.{Counts};
    ghost use Rattle.fan_bulk.specs.Summary.{AreSmall};

    ghost Value = { Counts };

    ghost view = { λ s. s.counts };

    ghost invariant = { λ s. AreSmall s.counts };
}

impl Summary {
    /// Nothing is counted.
    #[tactic(auto, unfolding(crate::specs::Summary::summary))]
    pub fn new() -> Summary
        ensures counts { result ≡ summary 0 [] }
        ensures lines { result.lines ≡ 0 }
        ensures replies { result.replies ≡ 0 }
    {
        Summary {
            counts: Counts {
                lines: 0,
                asked: 0,
                allowed: 0,
                denied: 0,
                told: 0,
                read: 0,
                reclaimed: 0,
                refused: 0,
                replies: 0,
            },
        }
    }

    /// Counts one more line.
    pub fn count_line(&mut self)
        requires { self.old.lines < 2 ^ 64 - 1 }
        ensures { self.new ≡ with_line self.old }
    {
        self.counts.lines += 1;
    }

    /// Counts what a reply tells.
    pub fn count(&mut self, reply: &Reply)
        requires { self.old.replies < 2 ^ 32 - 1 }
        ensures counts { self.new ≡ with_reply self.old reply.now }
        ensures lines { self.new.lines ≡ self.old.lines }
        ensures replies { self.new.replies ≡ self.old.replies + 1 }
    {
        self.counts.add(reply);
    }

    /// Puts the summary at the end: its eight lines.
    ///
    /// # Errors
    /// `NoMemory` if no memory is found; a front of the text may then stand at the end.
    #[tactic(auto, using(std::proofs::Common::append_assoc), unfolding(crate::specs::Summary::summary_text))]
    pub fn write(&self, out: &mut Vec<u8>) -> Result<(), NoMemory>
        ensures { OnOk result (out.new.items ≡ out.old.items ++ summary_text self.now) }
    {
        print_count(out, "lines", u128::from(self.counts.lines))?;
        print_count(out, "asked", self.counts.asked)?;
        print_count(out, "allowed", self.counts.allowed)?;
        print_count(out, "denied", self.counts.denied)?;
        print_count(out, "told", self.counts.told)?;
        print_count(out, "read", self.counts.read)?;
        print_count(out, "reclaimed", self.counts.reclaimed)?;
        print_count(out, "refused", self.counts.refused)
    }
}
