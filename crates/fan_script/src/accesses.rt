// The lines of accesses.
ghost use Rattle.fan_script.specs.Reading.{Gives, one_path_at, two_paths_at, paths_at, begin_at, step_at, run_at};

use crate::fields::{number, path, split_number};
use crate::line::{Line, LineRefused};
use crate::ops::op_named;
use crate::step::{OpWord, Step};
use crate::words::split_word;
use fan_io::Items;
use std::alloc::Global;

// The greatest number of a process or a thread.
const MOST_PID: u32 = 2_147_483_647;

// A path, and a second one.
type Paths = (Items<u8>, Option<Items<u8>>);

#[tactic(auto, unfolding(crate::specs::Reading::one_path_at))]
fn one_path(alloc: Global, fields: &[u8]) -> Result<Paths, LineRefused>
    ensures { Gives (λ paths. paths) result (one_path_at fields.now) }
{
    let path = path(alloc, fields)?;
    Ok((path, None))
}

#[tactic(auto, unfolding(crate::specs::Reading::two_paths_at))]
fn two_paths(alloc: Global, fields: &[u8]) -> Result<Paths, LineRefused>
    ensures { Gives (λ paths. paths) result (two_paths_at fields.now) }
{
    let (first, second) = split_word(fields)?;
    let from = path(alloc, first)?;
    let to = path(alloc, second)?;
    Ok((from, Some(to)))
}

// The paths of an operation: two of a rename, and one of any other.
#[tactic(auto, unfolding(crate::specs::Reading::paths_at))]
fn paths(alloc: Global, op: OpWord, fields: &[u8]) -> Result<Paths, LineRefused>
    ensures { Gives (λ paths. paths) result (paths_at op fields.now) }
{
    if op.takes_second() {
        two_paths(alloc, fields)
    } else {
        one_path(alloc, fields)
    }
}

#[tactic(auto, unfolding(crate::specs::Reading::begin_at))]
pub(crate) fn begin(alloc: Global, fields: &[u8]) -> Result<Line, LineRefused>
    ensures { Gives (λ line. line) result (begin_at fields.now) }
{
    let (access, fields) = split_number(fields, 1, u32::MAX)?;
    let (pid, fields) = split_number(fields, 1, MOST_PID)?;
    let (tid, fields) = split_number(fields, 1, MOST_PID)?;
    let (word, fields) = split_word(fields)?;
    let op = op_named(word).ok_or(LineRefused::BadLine)?;
    let (path, second) = paths(alloc, op, fields)?;
    Ok(Line::One(Step::Begin {
        access,
        pid,
        tid,
        op,
        path,
        second,
    }))
}

#[tactic(auto, unfolding(crate::specs::Reading::step_at))]
pub(crate) fn step(fields: &[u8]) -> Result<Line, LineRefused>
    ensures { Gives (λ line. line) result (step_at fields.now) }
{
    let access = number(fields, 1, u32::MAX)?;
    Ok(Line::One(Step::Advance { access }))
}

#[tactic(auto, unfolding(crate::specs::Reading::run_at))]
pub(crate) fn run(fields: &[u8]) -> Result<Line, LineRefused>
    ensures { Gives (λ line. line) result (run_at fields.now) }
{
    let access = number(fields, 1, u32::MAX)?;
    Ok(Line::Run(access))
}
