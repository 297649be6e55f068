// Permission events that have no verdict yet, in slots, which are found by descriptor.
ghost use Rattle.std.specs.Prelude.{◌≡◌, ◌<◌, ◌≤◌, ◌++◌, ◌∷◌, [], All, OnOk, drop, find, slice_get};
ghost use Rattle.fan_lists.specs.First.{without_first};
ghost use Rattle.fan_listener.specs.Responses.{is_under};

use super::answers::Pending;
use fan_io::NoMemory;
use fan_slots::Slots;
use std::alloc::Global;
use std::marker::Model;

/// Permission events without a verdict.
///
/// Contracts see the list of them in the order of their descriptors, and how many more can come
/// without memory.
#[derive(Drop)]
pub(crate) struct AskedEvents {
    alloc: Global,
    // They come with the first of them: most groups are never asked.
    by_fd: Option<Box<Slots<Pending>>>,
}

impl Model for AskedEvents {
    ghost use Rattle.std.specs.Map.{values_of};
    ghost use Rattle.fan_listener.specs.Asked.{AreUnderOwn, AskedState, entries_in, spare_in};

    ghost Value = { AskedState };

    ghost view = { λ a.
        record { events = values_of (entries_in a.by_fd); spare = spare_in a.by_fd } };

    ghost invariant = { λ a. AreUnderOwn (entries_in a.by_fd) };
}

impl AskedEvents {
    /// None. Takes no memory.
    pub(crate) fn new(alloc: Global) -> AskedEvents
        ensures { result.events ≡ [] }
    {
        AskedEvents { alloc, by_fd: None }
    }

    /// Makes room for one more. Only this takes memory.
    pub(crate) fn reserve(&mut self) -> Result<(), NoMemory>
        ensures room { OnOk result (1 ≤ self.new.spare) }
        ensures same { self.new.events ≡ self.old.events }
    {
        if let Some(by_fd) = &mut self.by_fd {
            return by_fd.reserve();
        }
        let mut by_fd = Slots::new(self.alloc);
        by_fd.reserve()?;
        self.by_fd = Some(Box::new(self.alloc, by_fd)?);
        Ok(())
    }

    /// Puts one with the greatest descriptor into the room that was made.
    pub(crate) fn push_reserved(&mut self, asked: Pending)
        requires room { 1 ≤ self.old.spare }
        requires last { All (λ other. other.fd < asked.fd) self.old.events }
        ensures { self.new.events ≡ self.old.events ++ asked ∷ [] }
    {
        let Some(by_fd) = &mut self.by_fd else {
            unreachable!();
        };
        let fd = asked.fd;
        by_fd.insert_reserved(fd, asked);
    }

    /// Takes away the one with a descriptor.
    pub(crate) fn remove(&mut self, fd: u32) -> Option<Pending>
        ensures value { result ≡ find (is_under fd) self.old.events }
        ensures rest { self.new.events ≡ without_first (is_under fd) self.old.events }
    {
        self.by_fd.as_mut()?.remove(fd)
    }

    /// Takes away the one with the least descriptor.
    pub(crate) fn take_first(&mut self) -> Option<Pending>
        ensures value { result ≡ slice_get self.old.events 0 }
        ensures rest { self.new.events ≡ drop 1 self.old.events }
    {
        let by_fd = self.by_fd.as_mut()?;
        let fd = by_fd.first()?;
        by_fd.remove(fd)
    }
}
