// The lines of groups, their marks and their listeners.
ghost use Rattle.fan_script.specs.Reading.{Gives, limit_at, init_at, mark_at, read_at, write_at, close_at};

use crate::fields::{flags, number, path, response, split_flags, split_mask, split_number};
use crate::line::{Line, LineRefused};
use crate::step::Step;
use std::alloc::Global;

// The greatest limit of a queue, in entries.
const MOST_ENTRIES: u32 = 16_384;

// The greatest size of a buffer, in bytes.
const MOST_SIZE: u32 = 1_048_576;

#[tactic(auto, unfolding(crate::specs::Reading::limit_at))]
pub(crate) fn limit(fields: &[u8]) -> Result<Line, LineRefused>
    ensures { Gives (λ line. line) result (limit_at fields.now) }
{
    let entries = number(fields, 1, MOST_ENTRIES)?;
    Ok(Line::One(Step::Limit { entries }))
}

#[tactic(auto, unfolding(crate::specs::Reading::init_at))]
pub(crate) fn init(fields: &[u8]) -> Result<Line, LineRefused>
    ensures { Gives (λ line. line) result (init_at fields.now) }
{
    let flags = flags(fields)?;
    Ok(Line::One(Step::Init { flags }))
}

#[tactic(auto, unfolding(crate::specs::Reading::mark_at))]
pub(crate) fn mark(alloc: Global, fields: &[u8]) -> Result<Line, LineRefused>
    ensures { Gives (λ line. line) result (mark_at fields.now) }
{
    let (group, fields) = split_number(fields, 1, u32::MAX)?;
    let (flags, fields) = split_flags(fields)?;
    let (mask, fields) = split_mask(fields)?;
    let path = path(alloc, fields)?;
    Ok(Line::One(Step::Mark {
        group,
        flags,
        mask,
        path,
    }))
}

#[tactic(auto, unfolding(crate::specs::Reading::read_at))]
pub(crate) fn read(fields: &[u8]) -> Result<Line, LineRefused>
    ensures { Gives (λ line. line) result (read_at fields.now) }
{
    let (group, fields) = split_number(fields, 1, u32::MAX)?;
    let size = number(fields, 0, MOST_SIZE)?;
    Ok(Line::One(Step::Read { group, size }))
}

#[tactic(auto, unfolding(crate::specs::Reading::write_at))]
pub(crate) fn write(alloc: Global, fields: &[u8]) -> Result<Line, LineRefused>
    ensures { Gives (λ line. line) result (write_at fields.now) }
{
    let (group, fields) = split_number(fields, 1, u32::MAX)?;
    let bytes = response(alloc, fields)?;
    Ok(Line::One(Step::Write { group, bytes }))
}

#[tactic(auto, unfolding(crate::specs::Reading::close_at))]
pub(crate) fn close(fields: &[u8]) -> Result<Line, LineRefused>
    ensures { Gives (λ line. line) result (close_at fields.now) }
{
    let group = number(fields, 1, u32::MAX)?;
    Ok(Line::One(Step::Close { group }))
}
