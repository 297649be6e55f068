// The groups, from group 1 on, closed ones among them.
ghost use Rattle.std.specs.Prelude.{◌≡◌, ◌≢◌, ℕ, ◌+◌, ◌-◌, ◌<◌, ◌≤◌, ◌^◌, ◌++◌, ◌∷◌, [], is_some, Ok, Err, Some, None, true, false, length, IfOk, IfErr, IfSome, IsOk, IsTrue, OnErr, OnOk, count_by};
ghost use Rattle.std.specs.Option.{option_copied};
ghost use Rattle.fan_groups.specs.Bounds.{AreBounded};
ghost use Rattle.fan_event.specs.Events.{event_for};
ghost use Rattle.fan_listener.specs.Groups.{answer_from, closed_in, is_open, listener_at, open_listener, put_to, read_from, written_to};
ghost use Rattle.fan_listener.specs.ListenerState.{new_listener};
ghost use Rattle.fan_listener.specs.Refusals.{read_errno};

use super::listeners::{
    answer_at, ask_at, close_at, index_of, index_of_open, read_at, tell_at, write_at,
};
use fan_access::Listeners;
use fan_bits::{Errno, Happening, InitWords};
use fan_io::NoMemory;
use fan_listener::{Answer, Answered, Listener, Put, ReadRefused};
use std::alloc::Global;
use std::marker::Model;

/// The groups with their listeners, seen as the list of these, from group 1 on, closed ones among them.
#[derive(Drop)]
pub struct Groups {
    alloc: Global,
    listeners: Vec<Listener>,
    // How many of them are open.
    open_count: usize,
}

impl Model for Groups {
    ghost use Rattle.std.specs.Prelude.{◌≡◌, List, count_by};
    ghost use Rattle.fan_listener.specs.Groups.{is_open};
    ghost use Rattle.fan_listener.specs.ListenerState.{ListenerState};

    ghost Value = { List ListenerState };

    ghost view = { λ groups. groups.listeners.items };

    ghost invariant = { λ groups. groups.open_count ≡ count_by is_open groups.listeners.items };
}

impl Groups {
    /// No group. Allocates nothing.
    pub fn new(alloc: Global) -> Groups
        ensures { result ≡ [] }
    {
        Groups {
            alloc,
            listeners: Vec::new(alloc),
            open_count: 0,
        }
    }

    /// How many groups are open.
    pub fn open_count(&self) -> usize
        ensures { result ≡ count_by is_open self.now }
    {
        self.open_count
    }

    /// Makes a group with these flags and this limit of its queue, and gives its number.
    pub fn make(&mut self, init: InitWords, limit: u32) -> Result<u32, NoMemory>
        requires few { length self.old < 2 ^ 30 }
        requires some { 1 ≤ limit }
        requires most { limit ≤ 16384 }
        ensures ok { OnOk result (self.new ≡ self.old ++ new_listener init.bits limit ∷ []) }
        ensures number { IfOk result (λ group. group ≡ length self.old + 1) }
        ensures bounds { (calls : ℕ) → AreBounded calls self.old → AreBounded (calls + 1) self.new }
        ensures err { OnErr result (self.new ≡ self.old) }
    {
        self.listeners
            .push(Listener::new(self.alloc, init, limit)?)?;
        self.open_count += 1;
        Ok(self.listeners.len() as u32)
    }

    /// The flags of a group that is open; None exactly if it is not.
    pub fn open_group(&self, group: u32) -> Option<InitWords>
        ensures open { IfSome result (λ init. IfSome (open_listener self.now group)
            (λ listener. init.bits ≡ listener.flags)) }
        ensures found { is_some result ≡ is_some (open_listener self.now group) }
    {
        let index = index_of_open(&self.listeners, group)?;
        Some(self.listeners[index].init())
    }

    /// Reads the queue of a group: `Closed`, `Again`, `Small`, as `Listener::read`.
    #[tactic(auto, unfolding(fan_listener::specs::Groups::read_from))]
    pub fn read(&mut self, group: u32, size: u32) -> Result<Vec<u8>, ReadRefused>
        requires { AreBounded (2 ^ 30 - 1) self.old }
        ensures ok { IfOk result (λ bytes.
            read_from self.old group size ≡ Ok (bytes.items, self.new)) }
        ensures refused { IfErr result (λ why.
            IfSome (read_errno why) (λ errno. read_from self.old group size ≡ Err errno)) }
        ensures memory { result ≡ Err ReadRefused.NoMemory → IsOk (read_from self.old group size) }
        ensures bounds { (calls : ℕ) → AreBounded calls self.old → AreBounded (calls + 1) self.new }
        ensures err { OnErr result (self.new ≡ self.old) }
    {
        match index_of(&self.listeners, group) {
            None => Err(ReadRefused::Closed),
            Some(index) => read_at(&mut self.listeners, index, size),
        }
    }

    /// Takes a response of a group's listener: EBADF, EINVAL, ENOENT. Allocates nothing.
    #[tactic(auto, unfolding(fan_listener::specs::Groups::written_to))]
    pub fn write(&mut self, group: u32, bytes: &[u8]) -> Result<Answered, Errno>
        ensures ok { IfOk result (λ answered.
            written_to self.old group bytes.now ≡ Ok (answered, self.new)) }
        ensures refused { IfErr result (λ errno. written_to self.old group bytes.now ≡ Err errno) }
        ensures bounds { (calls : ℕ) → AreBounded calls self.old → AreBounded (calls + 1) self.new }
        ensures err { OnErr result (self.new ≡ self.old) }
    {
        match index_of(&self.listeners, group) {
            None => Err(Errno::Ebadf),
            Some(index) => write_at(&mut self.listeners, index, bytes),
        }
    }

    /// Closes a group, and tells whether it was open. Allocates nothing.
    #[tactic(auto, unfolding(fan_listener::specs::Groups::closed_in))]
    pub fn close(&mut self, group: u32) -> bool
        ensures closed { IsTrue result → closed_in self.old group ≡ Some self.new }
        ensures not_open { result ≡ false → closed_in self.old group ≡ None }
        ensures same { result ≡ false → self.new ≡ self.old }
        ensures bounds { (calls : ℕ) → AreBounded calls self.old → AreBounded (calls + 1) self.new }
    {
        let Some(index) = index_of_open(&self.listeners, group) else {
            return false;
        };
        close_at(&mut self.listeners, index);
        self.open_count -= 1;
        true
    }
}

impl Listeners for Groups {
    ghost groups = { λ it. it };

    #[tactic(auto, unfolding(fan_listener::specs::Groups::put_to))]
    fn ask(
        &mut self,
        group: u32,
        happening: &Happening,
        name: &[u8],
        bits: u32,
        pid: u32,
        tid: u32,
    ) -> Result<Put, NoMemory> {
        match index_of(&self.listeners, group) {
            None => Ok(Put::Closed),
            Some(index) => ask_at(&mut self.listeners, index, happening, name, bits, pid, tid),
        }
    }

    #[tactic(auto, unfolding(fan_listener::specs::Groups::put_to))]
    fn tell(
        &mut self,
        group: u32,
        happening: &Happening,
        name: &[u8],
        bits: u32,
        pid: u32,
        tid: u32,
    ) -> Result<Put, NoMemory> {
        match index_of(&self.listeners, group) {
            None => Ok(Put::Closed),
            Some(index) => tell_at(&mut self.listeners, index, happening, name, bits, pid, tid),
        }
    }

    #[tactic(auto, unfolding(fan_listener::specs::Groups::answer_from))]
    fn answer(&mut self, group: u32, entry: u64) -> Answer {
        match index_of(&self.listeners, group) {
            None => Answer::Closed,
            Some(index) => answer_at(&mut self.listeners, index, entry),
        }
    }
}
