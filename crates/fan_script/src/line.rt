// A line of a script, and how it is read.
ghost use Rattle.std.specs.Prelude.{◌≡◌, ◌≤◌, Err, length, IfOk, OnOk};
ghost use Rattle.fan_script.specs.Lines.{LineOf};
ghost use Rattle.fan_script.specs.Reading.{Gives, line_at};

use crate::forms::{bare, named};
use crate::step::Step;
use crate::words::split_at_space;
use fan_io::NoMemory;
use std::alloc::{AllocError, Global};

/// What a line of a script asks for.
#[derive(Debug, Drop)]
pub enum Line {
    /// One step of the machine.
    One(Step),
    /// `run`: the single steps of an access, up to an answer that ends the run.
    Run(u32),
}

/// Why a line was not read.
#[derive(Clone, Copy, Debug, PartialEq, Eq)]
pub enum LineRefused {
    /// The bytes are no line.
    BadLine,
    /// No memory was found for a path or a response.
    NoMemory,
}

impl From<AllocError> for LineRefused {
    ghost use Rattle.fan_script.specs.declared.line.LineRefused.TheVariants.{NoMemory};

    ghost from_gives = { λ _ e. e ≡ NoMemory };

    fn from(_: AllocError) -> LineRefused {
        LineRefused::NoMemory
    }
}

impl From<NoMemory> for LineRefused {
    ghost use Rattle.fan_script.specs.declared.line.LineRefused.TheVariants as refusals;

    ghost from_gives = { λ _ e. e ≡ refusals.NoMemory };

    fn from(_: NoMemory) -> LineRefused {
        LineRefused::NoMemory
    }
}

// The line that the bytes spell, as `line_at` has it.
#[tactic(auto, unfolding(crate::specs::Reading::line_at))]
fn read_words(alloc: Global, bytes: &[u8]) -> Result<Line, LineRefused>
    ensures { Gives (λ line. line) result (line_at bytes.now) }
{
    match split_at_space(bytes) {
        Some((name, fields)) => named(alloc, name, fields),
        None => bare(bytes),
    }
}

/// Reads one line, its bytes without the LF, as docs/FORMATS.md has the lines of a script. `BadLine` comes
/// exactly where the bytes are no line; `NoMemory` comes where none is found for a path or a response.
pub fn read_line(alloc: Global, line: &[u8]) -> Result<Line, LineRefused>
    ensures found { IfOk result (λ read. LineOf line.now read) }
    ensures bad { result ≡ Err LineRefused.BadLine → (read : Line) → LineOf line.now read → ⊥ }
    ensures long { OnOk result (4 ≤ length line.now) }
{
    read_words(alloc, line)
}
