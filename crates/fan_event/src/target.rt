// The object of an event.
ghost use Rattle.std.specs.Prelude.{◌≡◌, IfOk};
ghost use Rattle.fan_event.specs.Notices.{target_seen};

use super::name::{Name, NameRef};
use super::target_ref::TargetRef;
use fan_io::NoMemory;
use std::alloc::Global;

/// The object of an event as the group reports it. Numbers are from 1 to 65,535.
#[derive(Debug, PartialEq, Eq, Drop)]
pub enum Target {
    /// For a group that gets descriptors: the mount through which the object was reached, and the
    /// inode.
    Fd {
        /// The number of the mount.
        mount: u32,
        /// The number of the inode.
        inode: u32,
    },
    /// For a group that gets handles. A name stands only beside a directory.
    Handle {
        /// The number of the filesystem.
        fs: u32,
        /// The number of the object, if its handle is reported.
        object: Option<u32>,
        /// The number of its directory, if its handle is reported.
        dir: Option<u32>,
        /// The name of the entry in that directory, if it is reported.
        name: Option<Name>,
    },
}

impl Target {
    /// It, with its name borrowed.
    pub(crate) fn borrowed(&self) -> TargetRef<'_>
        ensures { target_seen result ≡ self.now }
    {
        match self {
            Target::Fd { mount, inode } => TargetRef::Fd {
                mount: *mount,
                inode: *inode,
            },
            Target::Handle {
                fs,
                object,
                dir,
                name,
            } => TargetRef::Handle {
                fs: *fs,
                object: *object,
                dir: *dir,
                name: borrowed_name(name),
            },
        }
    }

    /// A copy of it.
    ///
    /// # Errors
    /// `NoMemory` if no memory was found for its name.
    pub fn copy_in(&self, alloc: Global) -> Result<Target, NoMemory>
        ensures { IfOk result (λ copy. copy ≡ self.now) }
    {
        match self {
            Target::Fd { mount, inode } => Ok(Target::Fd {
                mount: *mount,
                inode: *inode,
            }),
            Target::Handle {
                fs,
                object,
                dir,
                name,
            } => Ok(Target::Handle {
                fs: *fs,
                object: *object,
                dir: *dir,
                name: copy_of(name, alloc)?,
            }),
        }
    }
}

// A name as it is borrowed, if there is one.
fn borrowed_name(name: &Option<Name>) -> Option<NameRef<'_>>
    ensures { result ≡ name.now }
{
    match name {
        Some(name) => Some(name.borrowed()),
        None => None,
    }
}

// A copy of a name, if there is one.
fn copy_of(name: &Option<Name>, alloc: Global) -> Result<Option<Name>, NoMemory>
    ensures { IfOk result (λ copy. copy ≡ name.now) }
{
    match name {
        Some(name) => Ok(Some(name.copy_in(alloc)?)),
        None => Ok(None),
    }
}
