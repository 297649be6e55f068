// What a group is told of a happening: fanotify(7).
ghost use Rattle.std.specs.Prelude.{◌≡◌, IfOk};
ghost use Rattle.fan_event.specs.Events.{event_for, with_bits};
ghost use Rattle.fan_event.specs.Names.{IsName};

use super::notice::{Notice, notice_for};
use super::target::Target;
use fan_bits::{Happening, InitWords};
use fan_io::NoMemory;
use std::alloc::Global;

/// An event for one group.
#[derive(Debug, PartialEq, Eq, Drop)]
pub struct Event {
    /// The bits that happened: FAN_OPEN and the like.
    pub bits: u32,
    /// Whether the object is a directory.
    pub ondir: bool,
    /// The process, or the thread in a group with FAN_REPORT_TID.
    pub who: u32,
    /// Whether it is a permission event.
    pub perm: bool,
    /// The object.
    pub target: Target,
}

impl Event {
    /// Takes further bits that happened. Nothing else of it changes.
    pub fn take_bits(&mut self, bits: u32)
        ensures { self.new ≡ with_bits bits self.old }
    {
        self.bits |= bits;
    }

    /// The event with its name borrowed. Takes no memory.
    pub fn notice(&self) -> Notice<'_>
        ensures { result ≡ self.now }
    {
        Notice {
            bits: self.bits,
            ondir: self.ondir,
            who: self.who,
            perm: self.perm,
            target: self.target.borrowed(),
        }
    }

    /// A copy of it.
    ///
    /// # Errors
    /// `NoMemory` if no memory was found for its name.
    pub fn copy_in(&self, alloc: Global) -> Result<Event, NoMemory>
        ensures { IfOk result (λ copy. copy ≡ self.now) }
    {
        Ok(Event {
            bits: self.bits,
            ondir: self.ondir,
            who: self.who,
            perm: self.perm,
            target: self.target.copy_in(alloc)?,
        })
    }
}

/// What a group with the flags `init` is told of a happening: `bits` of it, done by the process
/// `pid` in its thread `tid`. The object was reached by `name`, or the entry has it. It is a
/// permission event if `perm` holds. Which handles and names are reported is told in docs/FORMATS.md,
/// after fanotify_init(2) under FAN_REPORT_DIR_FID and FAN_REPORT_NAME.
///
/// # Errors
/// `NoMemory` if no memory was found for the name.
pub fn event_for(
    alloc: Global,
    init: InitWords,
    happening: &Happening,
    name: &[u8],
    bits: u32,
    pid: u32,
    tid: u32,
    perm: bool,
) -> Result<Event, NoMemory>
    requires { IsName name.now }
    ensures { IfOk result (λ event. event
        ≡ event_for init.bits happening.now name.now bits pid tid perm) }
{
    notice_for(init, happening, name, bits, pid, tid, perm).to_event(alloc)
}
