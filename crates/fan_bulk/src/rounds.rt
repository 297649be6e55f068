// The rounds of the script, one after another.
ghost use Rattle.std.specs.Prelude.{◌≡◌, ◌+◌, ◌-◌, ◌<◌, ◌≤◌, ◌^◌, ◌++◌, IfOk, OnErr, OnOk, length};
ghost use Rattle.fan_bulk.specs.Lines.{allowed_lines, asked_lines, draws, first_round, is_allowed, is_denied, is_opening, lines_by, next_round, one_more_if, round_after, round_lines, state_after};

use crate::generator::Generator;
use crate::lines::{mark_line, push_answer, push_begin};
use fan_io::NoMemory;
use fan_script::{Line, OpWord, Step};
use std::alloc::Global;
use std::marker::Model;

// FAN_ALLOW and FAN_DENY.
const ALLOW: u32 = 1;

const DENY: u32 = 2;

/// What a round draws.
#[derive(Clone, Copy, Debug, PartialEq, Eq)]
pub(crate) struct Drawn {
    /// Its kind, below 8: the file is opened (0 to 3) or written to (4), group 3 marks it (5) or takes its
    /// mark away (6), or group 3 reads (7).
    pub(crate) kind: u8,
    /// The digit of its file, below 10.
    pub(crate) file: u8,
    /// What group 1 answers, below 8: it denies by 0.
    pub(crate) answer: u8,
}

impl Drawn {
    // Whether the file is opened.
    fn is_opening(self) -> bool
        ensures { result ≡ is_opening self }
    {
        self.kind < 4
    }

    // Whether group 1 denies.
    fn is_denied(self) -> bool
        ensures { result ≡ is_denied self }
    {
        self.answer == 0
    }

    // Whether group 1 allows, so that group 2 is asked.
    fn is_allowed(self) -> bool
        ensures { result ≡ is_allowed self }
    {
        self.is_opening() && !self.is_denied()
    }
}

// The three draws of a round.
#[tactic(auto, unfolding(crate::specs::Lines::draws, crate::specs::Lines::state_after))]
fn draw_round(generator: &mut Generator) -> Drawn
    ensures drawn { result ≡ draws generator.old.state }
    ensures state { generator.new.state ≡ state_after generator.old.state }
    ensures file { result.file < 10 }
{
    let kind = generator.draw(8) as u8;
    let file = generator.draw(10) as u8;
    let answer = generator.draw(8) as u8;
    Drawn { kind, file, answer }
}

// A number, one more if the test holds.
fn one_more_if(test: bool, number: u32) -> u32
    requires { number < 2 ^ 32 - 1 }
    ensures { result ≡ one_more_if test number }
{
    if test { number + 1 } else { number }
}

/// The rounds of the script. Each goes on from the one before: with the state of the generator, the number
/// of its access, and the descriptors that groups 1 and 2 answer next.
#[derive(Debug, Drop)]
pub struct Rounds {
    generator: Generator,
    access: u32,
    first: u32,
    second: u32,
}

impl Model for Rounds {
    ghost use Rattle.std.specs.Prelude.{◌<◌};
    ghost use Rattle.fan_bulk.specs.Lines.{Round};

    ghost Value = { Round };

    ghost view = { λ r. record {
      state = r.generator.state;
      access = r.access;
      first = r.first;
      second = r.second;
    } };

    ghost invariant = { λ r. (r.first < r.access) × (r.second < r.access) };
}

impl Rounds {
    /// The rounds of a seed, before the first one.
    pub fn new(seed: u64) -> Rounds
        ensures { result ≡ first_round seed }
    {
        Rounds {
            generator: Generator { state: seed },
            access: 1,
            first: 0,
            second: 0,
        }
    }

    /// The lines of the next round, at most 8.
    ///
    /// # Errors
    /// `NoMemory` if no memory is found for them; the next call tries the same round again.
    #[tactic(auto, unfolding(crate::specs::Lines::round_lines, crate::specs::Lines::next_round))]
    pub fn next_lines(&mut self, alloc: Global) -> Result<Vec<Line>, NoMemory>
        requires { self.old.access < 2 ^ 32 - 1 }
        ensures lines { IfOk result (λ lines. lines.items ≡ round_lines self.old) }
        ensures few { IfOk result (λ lines. length lines.items ≤ 8) }
        ensures next { OnOk result (self.new ≡ next_round self.old) }
        ensures access { OnOk result (self.new.access ≡ self.old.access + 1) }
        ensures err { OnErr result (self.new ≡ self.old) }
    {
        let mut generator = self.generator;
        let drawn = draw_round(&mut generator);
        let lines = self.lines(alloc, drawn)?;
        self.generator = generator;
        self.access += 1;
        self.first = one_more_if(drawn.is_opening(), self.first);
        self.second = one_more_if(drawn.is_allowed(), self.second);
        Ok(lines)
    }

    // The lines of this round, by what it draws.
    fn lines(&self, alloc: Global, drawn: Drawn) -> Result<Vec<Line>, NoMemory>
        requires { drawn.file < 10 }
        ensures { IfOk result (λ lines. lines.items ≡ lines_by self.now drawn) }
    {
        let mut lines = Vec::new(alloc);
        match drawn.kind {
            0..=3 => {
                push_begin(alloc, &mut lines, self.access, OpWord::Opens, drawn.file)?;
                self.push_asked(alloc, &mut lines, drawn)?;
            }
            4 => push_begin(alloc, &mut lines, self.access, OpWord::Writes, drawn.file)?,
            5 => lines.push(mark_line(alloc, 0x1, drawn.file)?)?,
            6 => lines.push(mark_line(alloc, 0x2, drawn.file)?)?,
            _ => {
                lines.push(Line::One(Step::Read {
                    group: 3,
                    size: 65_536,
                }))?;
                lines.push(Line::One(Step::Grace))?;
            }
        }
        Ok(lines)
    }

    // Puts the lines of the groups that are asked at an opening.
    fn push_asked(&self, alloc: Global, lines: &mut Vec<Line>, drawn: Drawn) -> Result<(), NoMemory>
        ensures { OnOk result (lines.new.items ≡ lines.old.items ++ asked_lines self.now drawn) }
    {
        if drawn.is_denied() {
            push_answer(alloc, lines, self.access, 1, self.first, DENY)
        } else {
            self.push_allowed(alloc, lines)
        }
    }

    // Puts the lines by which groups 1 and 2 allow.
    #[tactic(auto, using(std::proofs::Common::append_assoc))]
    fn push_allowed(&self, alloc: Global, lines: &mut Vec<Line>) -> Result<(), NoMemory>
        ensures { OnOk result (lines.new.items ≡ lines.old.items ++ allowed_lines self.now) }
    {
        push_answer(alloc, lines, self.access, 1, self.first, ALLOW)?;
        push_answer(alloc, lines, self.access, 2, self.second, ALLOW)
    }
}
