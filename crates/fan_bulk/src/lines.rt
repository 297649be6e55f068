// Lines of the script, and what stands in them.
ghost use Rattle.std.specs.Prelude.{◌≡◌, ◌<◌, ◌++◌, IfOk, OnOk};
ghost use Rattle.fan_bulk.specs.Lines.{answer_lines, begin_lines, file_line, file_path, mark_line, response};

use fan_io::{Items, NoMemory};
use fan_script::{Line, OpWord, Step};
use std::alloc::Global;

// A path as an item of a line.
pub(crate) fn path_of(alloc: Global, path: &[u8]) -> Result<Items<u8>, NoMemory>
    ensures { IfOk result (λ it. it ≡ path.now) }
{
    Ok(Items::from_vec(Vec::from_slice(alloc, path)?))
}

// The path of a file, by its digit.
fn file_path(alloc: Global, file: u8) -> Result<Items<u8>, NoMemory>
    requires { file < 10 }
    ensures { IfOk result (λ path. path ≡ file_path file) }
{
    path_of(alloc, &[b'/', b'd', b'/', b'0' + file])
}

// The line that makes a file.
pub(crate) fn file_line(alloc: Global, file: u8) -> Result<Line, NoMemory>
    requires { file < 10 }
    ensures { IfOk result (λ line. line ≡ file_line file) }
{
    let path = file_path(alloc, file)?;
    Ok(Line::One(Step::MkFile { path }))
}

// The line by which group 3 marks a file, or takes its mark away.
pub(crate) fn mark_line(alloc: Global, flags: u32, file: u8) -> Result<Line, NoMemory>
    requires { file < 10 }
    ensures { IfOk result (λ line. line ≡ mark_line flags file) }
{
    let path = file_path(alloc, file)?;
    Ok(Line::One(Step::Mark {
        group: 3,
        flags,
        mask: 0x20,
        path,
    }))
}

// The bytes of a response.
#[tactic(auto, unfolding(crate::specs::Lines::response))]
fn response(alloc: Global, fd: u32, value: u32) -> Result<Items<u8>, NoMemory>
    ensures { IfOk result (λ bytes. bytes ≡ response fd value) }
{
    let mut bytes = Vec::from_slice(alloc, &fd.to_le_bytes())?;
    bytes.extend_from_slice(&value.to_le_bytes())?;
    Ok(Items::from_vec(bytes))
}

// Puts the lines by which an access to a file begins, and is run.
#[tactic(auto, using(std::proofs::Common::append_assoc), unfolding(crate::specs::Lines::begin_lines))]
pub(crate) fn push_begin(
    alloc: Global,
    lines: &mut Vec<Line>,
    access: u32,
    op: OpWord,
    file: u8,
) -> Result<(), NoMemory>
    requires { file < 10 }
    ensures { OnOk result (lines.new.items ≡ lines.old.items ++ begin_lines access op file) }
{
    let pid = 100 + u32::from(file);
    let path = file_path(alloc, file)?;
    lines.push(Line::One(Step::Begin {
        access,
        pid,
        tid: pid,
        op,
        path,
        second: None,
    }))?;
    lines.push(Line::Run(access))?;
    Ok(())
}

// Puts the lines by which a group's listener answers a descriptor, and the access is run on.
#[tactic(auto, using(std::proofs::Common::append_assoc), unfolding(crate::specs::Lines::answer_lines))]
pub(crate) fn push_answer(
    alloc: Global,
    lines: &mut Vec<Line>,
    access: u32,
    group: u32,
    fd: u32,
    value: u32,
) -> Result<(), NoMemory>
    ensures { OnOk result (lines.new.items ≡ lines.old.items ++ answer_lines access group fd value) }
{
    let bytes = response(alloc, fd, value)?;
    lines.push(Line::One(Step::Read { group, size: 4096 }))?;
    lines.push(Line::One(Step::Write { group, bytes }))?;
    lines.push(Line::Run(access))?;
    Ok(())
}
