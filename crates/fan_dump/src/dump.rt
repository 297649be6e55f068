// Records read one after the other, and their lines written.
ghost use Rattle.std.specs.Prelude.{◌≡◌, ◌++◌, ◌≤◌, [], Err, IfOk, OnOk, option_map};
ghost use Rattle.fan_dump.specs.Dump.{Dumps, DumpsFront};
ghost use Rattle.fan_dump.specs.Gathered.{GathersDump, GathersDumpFront};
ghost use Rattle.fan_dump.specs.Texts.{bad_text};
ghost use Rattle.fan_io.specs.Faults.{Rose};

use super::event::print_event;
use fan_blocks::Blocks;
use fan_io::{Failed, NoMemory, Sink};
use fan_print::{print_decimal, print_text};
use fan_record::{BadRecord, Records};
use std::alloc::Global;

/// Why a text was cut off.
#[derive(Clone, Copy, Debug, PartialEq, Eq)]
pub enum CutOff {
    /// The sink failed.
    Failed,
    /// No memory was found for a line.
    NoMemory,
}

impl From<NoMemory> for CutOff {
    ghost use Rattle.fan_dump.specs.declared.dump.CutOff.TheVariants as causes;

    ghost from_gives = { λ _ e. e ≡ causes.NoMemory };

    fn from(_: NoMemory) -> CutOff {
        CutOff::NoMemory
    }
}

impl From<Failed> for CutOff {
    ghost use Rattle.fan_dump.specs.declared.dump.CutOff.TheVariants as causes;

    ghost from_gives = { λ _ e. e ≡ causes.Failed };

    fn from(_: Failed) -> CutOff {
        CutOff::Failed
    }
}

// Puts the line at the end that names the place of what is no record.
#[tactic(auto, using(std::proofs::Common::append_assoc), unfolding(crate::specs::Texts::bad_text))]
fn print_bad(out: &mut Vec<u8>, bad: BadRecord) -> Result<(), NoMemory>
    ensures { OnOk result (out.new.items ≡ out.old.items ++ bad_text bad.at) }
{
    print_text(out, "bad record at ")?;
    print_decimal(out, bad.at as u64)?;
    print_text(out, "\n")
}

// Gathers the lines of records and of their information records, up to the end of the bytes or to
// the line that names the first place where no record stands.
fn gather_dump<K: Sink>(
    alloc: Global,
    bytes: &[u8],
    blocks: &mut Blocks,
    sink: &mut K,
) -> Result<Option<BadRecord>, CutOff>
    requires { blocks.old.gathered ≡ [] }
    ensures told { IfOk result (λ bad. GathersDump (K.held sink.old) (K.held sink.new)
        blocks.new.gathered bytes.now (option_map (λ b. b.at) bad)) }
    ensures front { GathersDumpFront
        (K.held sink.old) (K.held sink.new) blocks.new.gathered bytes.now }
    ensures fault { result ≡ Err CutOff.Failed → Rose (K.faults sink.old) (K.faults sink.new) }
    ensures kept { K.faults sink.old ≤ K.faults sink.new }
{
    let mut records = Records::new(bytes);
    let mut text = Vec::new(alloc);
    while let Some(answer) = records.next() {
        text.clear();
        match answer {
            Ok(event) => {
                print_event(alloc, &mut text, &event)?;
                blocks.push(&text, sink)?;
            }
            Err(bad) => {
                print_bad(&mut text, bad)?;
                blocks.push(&text, sink)?;
                return Ok(Some(bad));
            }
        }
    }
    Ok(None)
}

/// Writes the lines of records and of their information records, up to the end of the bytes or to
/// the first place where no record stands, which it then names in a last line and answers. The lines
/// are put in blocks that grow; the first block is of the first record alone.
///
/// # Errors
/// - `Failed` if the sink failed; its count of faults rose.
/// - `NoMemory` if no memory was found for a line. The lines before it were put.
///
/// With either, a front of the text was put.
pub fn write_dump<K: Sink>(
    alloc: Global,
    bytes: &[u8],
    sink: &mut K,
) -> Result<Option<BadRecord>, CutOff>
    ensures told { IfOk result (λ bad.
        Dumps (K.held sink.old) (K.held sink.new) bytes.now (option_map (λ b. b.at) bad)) }
    ensures front { DumpsFront (K.held sink.old) (K.held sink.new) bytes.now }
    ensures fault { result ≡ Err CutOff.Failed → Rose (K.faults sink.old) (K.faults sink.new) }
    ensures kept { K.faults sink.old ≤ K.faults sink.new }
{
    let mut blocks = Blocks::new(alloc);
    let bad = gather_dump(alloc, bytes, &mut blocks, sink);
    blocks.flush(sink)?;
    bad
}
