// The object of an event that is told: its name is borrowed.
ghost use Rattle.std.specs.Prelude.{◌≡◌, IfOk};
ghost use Rattle.fan_event.specs.Notices.{target_seen};
ghost use Rattle.fan_event.specs.Events.{has_fd};

use super::name::{Name, NameRef};
use super::target::Target;
use fan_io::NoMemory;
use std::alloc::Global;

/// The object of an event as the group reports it, with a borrowed name.
#[derive(Debug, Drop)]
pub(crate) enum TargetRef<'a> {
    /// The mount through which the object was reached, and the inode.
    Fd {
        mount: u32,
        inode: u32,
    },
    /// The filesystem, the object and its directory, if they are reported, and the entry's name.
    Handle {
        fs: u32,
        object: Option<u32>,
        dir: Option<u32>,
        name: Option<NameRef<'a>>,
    },
}

impl<'a> TargetRef<'a> {
    /// It, with a name of its own.
    pub(crate) fn to_target(&self, alloc: Global) -> Result<Target, NoMemory>
        ensures { IfOk result (λ target. target ≡ target_seen self.now) }
    {
        match self {
            TargetRef::Fd { mount, inode } => Ok(Target::Fd {
                mount: *mount,
                inode: *inode,
            }),
            TargetRef::Handle {
                fs,
                object,
                dir,
                name,
            } => Ok(Target::Handle {
                fs: *fs,
                object: *object,
                dir: *dir,
                name: own_name(name, alloc)?,
            }),
        }
    }

    /// Whether it is reported by a descriptor, and not by handles.
    pub(crate) fn has_fd(&self) -> bool
        ensures { result ≡ has_fd (target_seen self.now) }
    {
        matches!(self, TargetRef::Fd { .. })
    }
}

// A name of its own, if there is one.
fn own_name(name: &Option<NameRef<'_>>, alloc: Global) -> Result<Option<Name>, NoMemory>
    ensures { IfOk result (λ own. own ≡ name.now) }
{
    match name {
        Some(name) => Ok(Some(Name::of(alloc, name.bytes())?)),
        None => Ok(None),
    }
}
