// The lines that make files and directories, and that mount filesystems.
ghost use Rattle.fan_script.specs.Reading.{Gives, mkfile_at, mkdir_at, mount_at, umount_at};

use crate::fields::{path, split_number};
use crate::line::{Line, LineRefused};
use crate::step::Step;
use std::alloc::Global;

// The greatest number of a filesystem.
const MOST_FS: u32 = 65_535;

#[tactic(auto, unfolding(crate::specs::Reading::mkfile_at))]
pub(crate) fn mkfile(alloc: Global, fields: &[u8]) -> Result<Line, LineRefused>
    ensures { Gives (λ line. line) result (mkfile_at fields.now) }
{
    let path = path(alloc, fields)?;
    Ok(Line::One(Step::MkFile { path }))
}

#[tactic(auto, unfolding(crate::specs::Reading::mkdir_at))]
pub(crate) fn mkdir(alloc: Global, fields: &[u8]) -> Result<Line, LineRefused>
    ensures { Gives (λ line. line) result (mkdir_at fields.now) }
{
    let path = path(alloc, fields)?;
    Ok(Line::One(Step::MkDir { path }))
}

#[tactic(auto, unfolding(crate::specs::Reading::mount_at))]
pub(crate) fn mount(alloc: Global, fields: &[u8]) -> Result<Line, LineRefused>
    ensures { Gives (λ line. line) result (mount_at fields.now) }
{
    let (fs, fields) = split_number(fields, 1, MOST_FS)?;
    let path = path(alloc, fields)?;
    Ok(Line::One(Step::Mount { fs, path }))
}

#[tactic(auto, unfolding(crate::specs::Reading::umount_at))]
pub(crate) fn umount(alloc: Global, fields: &[u8]) -> Result<Line, LineRefused>
    ensures { Gives (λ line. line) result (umount_at fields.now) }
{
    let path = path(alloc, fields)?;
    Ok(Line::One(Step::Umount { path }))
}
