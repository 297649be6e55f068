// An event as it is told, before it is kept anywhere.
ghost use Rattle.std.specs.Prelude.{◌≡◌, IfOk};
ghost use Rattle.fan_event.specs.Events.{event_for, has_fd};
ghost use Rattle.fan_event.specs.Names.{IsName};

use super::event::Event;
use super::reported::target_of;
use super::target_ref::TargetRef;
use fan_bits::{Happening, InitWords};
use fan_io::NoMemory;
use std::alloc::Global;
use std::marker::Model;

/// An event that a group is told of. Its name is borrowed, and copied only where the event is kept.
/// Contracts see the event.
#[derive(Debug, Drop)]
pub struct Notice<'a> {
    pub(crate) bits: u32,
    pub(crate) ondir: bool,
    pub(crate) who: u32,
    pub(crate) perm: bool,
    pub(crate) target: TargetRef<'a>,
}

impl<'a> Model for Notice<'a> {
    ghost use Rattle.fan_event.specs.declared.event.Event.{Event};

    ghost Value = { Event };

    ghost use Rattle.fan_event.specs.Notices.{target_seen};

    ghost view = { λ n. record {
      bits = n.bits;
      ondir = n.ondir;
      who = n.who;
      perm = n.perm;
      target = target_seen n.target;
    } };
}

impl<'a> Notice<'a> {
    /// The bits that happened.
    pub fn bits(&self) -> u32
        ensures { result ≡ self.now.bits }
    {
        self.bits
    }

    /// Whether it is a permission event.
    pub fn is_permission(&self) -> bool
        ensures { result ≡ self.now.perm }
    {
        self.perm
    }

    /// Whether its object is reported by a descriptor, and not by handles.
    pub fn has_fd(&self) -> bool
        ensures { result ≡ has_fd self.now.target }
    {
        self.target.has_fd()
    }

    /// The event, with a name of its own.
    ///
    /// # Errors
    /// `NoMemory` if no memory was found for its name.
    pub fn to_event(&self, alloc: Global) -> Result<Event, NoMemory>
        ensures { IfOk result (λ event. event ≡ self.now) }
    {
        Ok(Event {
            bits: self.bits,
            ondir: self.ondir,
            who: self.who,
            perm: self.perm,
            target: self.target.to_target(alloc)?,
        })
    }
}

/// What a group with the flags `init` is told of a happening: `bits` of it, done by the process
/// `pid` in its thread `tid`. The object was reached by `name`, or the entry has it. It is a
/// permission event if `perm` holds. Which handles and names are reported is told in docs/FORMATS.md,
/// after fanotify_init(2) under FAN_REPORT_DIR_FID and FAN_REPORT_NAME. Takes no memory.
pub fn notice_for<'a>(
    init: InitWords,
    happening: &Happening,
    name: &'a [u8],
    bits: u32,
    pid: u32,
    tid: u32,
    perm: bool,
) -> Notice<'a>
    requires { IsName name.now }
    ensures { result ≡ event_for init.bits happening.now name.now bits pid tid perm }
{
    Notice {
        bits,
        ondir: happening.ondir,
        who: if init.reports_tid() { tid } else { pid },
        perm,
        target: target_of(init, happening, name, bits),
    }
}
