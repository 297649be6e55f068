// The lines before the first round.
ghost use Rattle.std.specs.Prelude.{◌≡◌, ◌++◌, ◌∷◌, [], IfOk, OnOk, length, map};
ghost use Rattle.fan_bulk.specs.Lines.{dir_mark, file_line, files, group_lines, opening};

use crate::lines::{file_line, path_of};
use fan_io::NoMemory;
use fan_script::{Line, Step};
use std::alloc::Global;

// Puts the lines that make the ten files.
#[tactic(auto, using(std::proofs::Common::append_assoc, crate::proofs::FileLemmas::files_from))]
fn push_files(alloc: Global, lines: &mut Vec<Line>) -> Result<(), NoMemory>
    ensures { OnOk result (lines.new.items ≡ lines.old.items ++ map file_line files) }
{
    for file in 0..10 {
        lines.push(file_line(alloc, file)?)?;
    }
    Ok(())
}

// Puts the line by which a group marks the directory.
fn push_mark(alloc: Global, lines: &mut Vec<Line>, group: u32, mask: u64) -> Result<(), NoMemory>
    ensures { OnOk result (lines.new.items ≡ lines.old.items ++ dir_mark group mask ∷ []) }
{
    let path = path_of(alloc, b"/d")?;
    lines.push(Line::One(Step::Mark {
        group,
        flags: 0x1,
        mask,
        path,
    }))?;
    Ok(())
}

// Puts the lines that make the three groups, and their marks on the directory.
#[tactic(auto, using(std::proofs::Common::append_assoc))]
fn push_groups(alloc: Global, lines: &mut Vec<Line>) -> Result<(), NoMemory>
    ensures { OnOk result (lines.new.items ≡ lines.old.items ++ group_lines) }
{
    lines.push(Line::One(Step::Init { flags: 0x8 }))?;
    lines.push(Line::One(Step::Init { flags: 0x4 }))?;
    lines.push(Line::One(Step::Init { flags: 0x0 }))?;
    push_mark(alloc, lines, 1, 0x801_0000)?;
    push_mark(alloc, lines, 2, 0x801_0000)?;
    push_mark(alloc, lines, 3, 0x800_003a)
}

/// The 18 lines before the first round.
///
/// # Errors
/// `NoMemory` if no memory is found for them.
#[tactic(auto, using(std::proofs::Common::append_assoc), unfolding(crate::specs::Lines::opening))]
pub fn opening(alloc: Global) -> Result<Vec<Line>, NoMemory>
    ensures lines { IfOk result (λ lines. lines.items ≡ opening) }
    ensures count { IfOk result (λ lines. length lines.items ≡ 18) }
{
    let mut lines = Vec::new(alloc);
    let path = path_of(alloc, b"/d")?;
    lines.push(Line::One(Step::Limit { entries: 64 }))?;
    lines.push(Line::One(Step::MkDir { path }))?;
    push_files(alloc, &mut lines)?;
    push_groups(alloc, &mut lines)?;
    Ok(lines)
}
