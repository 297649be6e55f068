// The listener of a group: fanotify(7). Of one that is closed, and whose verdicts were taken, little is kept.
ghost use Rattle.std.specs.Prelude.{◌≡◌, ◌≢◌, ℕ, ◌+◌, ◌-◌, ◌^◌, ◌<◌, ◌≤◌, true, false, length, Ok, Err, IsOk, IfOk, IfErr, IfNone, IfSome, OnOk, OnErr};
ghost use Rattle.fan_listener.specs.ListenerState.{new_listener};
ghost use Rattle.fan_listener.specs.Queue.{put};
ghost use Rattle.fan_listener.specs.Records.{read_of};
ghost use Rattle.fan_listener.specs.Refusals.{read_errno, write_errno};
ghost use Rattle.fan_listener.specs.Responses.{answer_of, closed_of, written};
ghost use Rattle.fan_listener.specs.Bounds.{Makes};

use super::answers::{Answer, Answered, ReadRefused, WriteRefused};
use super::kept::KeptListener;
use super::shut::Shut;
use fan_bits::InitWords;
use fan_event::{Event, Notice};
use fan_io::NoMemory;
use fan_queue::Put;
use std::alloc::Global;
use std::marker::Model;

/// The listener of one group.
#[derive(Drop)]
pub struct Listener {
    state: State,
}

// What is kept of a listener.
#[derive(Drop)]
enum State {
    // All of it.
    Kept(Box<KeptListener>),
    // What is left in the end.
    Shut(Shut),
}

impl Model for Listener {
    ghost use Rattle.fan_listener.specs.ListenerState.{ListenerState};
    ghost use Rattle.fan_listener.specs.Shut.{state_of};

    ghost Value = { ListenerState };

    ghost view = { λ l. state_of l.state };
}

impl Listener {
    /// A listener with nothing queued. At `limit` entries, from 1 to 16,384, the queue is full and the
    /// lost entry stands for further events; with FAN_UNLIMITED_QUEUE it has no limit.
    #[tactic(auto, unfolding(crate::specs::ListenerState::new_listener))]
    pub fn new(alloc: Global, init: InitWords, limit: u32) -> Result<Listener, NoMemory>
        requires some { 1 ≤ limit }
        requires most { limit ≤ 16384 }
        ensures { IfOk result (λ made. made ≡ new_listener init.bits limit) }
    {
        let kept = KeptListener::new(alloc, init, limit)?;
        Ok(Listener {
            state: State::Kept(Box::new(alloc, kept)?),
        })
    }

    /// The flags with which it was made.
    pub fn init(&self) -> InitWords
        ensures { result.bits ≡ self.now.flags }
    {
        match &self.state {
            State::Kept(kept) => kept.init(),
            State::Shut(shut) => shut.init,
        }
    }

    /// Whether it was closed.
    pub fn is_closed(&self) -> bool
        ensures { result ≡ self.now.closed }
    {
        match &self.state {
            State::Kept(kept) => kept.is_closed(),
            State::Shut(_) => true,
        }
    }

    /// How many entries it made so far.
    pub fn entries_made(&self) -> u64
        ensures { result ≡ self.now.next_entry - 1 }
    {
        match &self.state {
            State::Kept(kept) => kept.entries_made(),
            State::Shut(shut) => shut.next_entry.saturating_sub(1),
        }
    }

    /// How many descriptors it gave out so far.
    pub fn fds_given(&self) -> u32
        ensures { result ≡ self.now.next_fd }
    {
        match &self.state {
            State::Kept(kept) => kept.fds_given(),
            State::Shut(shut) => shut.next_fd,
        }
    }

    /// Puts a permission event on the queue. It is never merged. Memory is found here for its answer
    /// too; no response can name one that is reported by handles. `NoMemory` changes nothing.
    pub fn ask(&mut self, event: Event) -> Result<Put, NoMemory>
        requires permission { event.perm ≡ true }
        requires entries { self.old.next_entry ≤ 2 ^ 31 }
        ensures ok { IfOk result (λ outcome. (outcome, self.new) ≡ put self.old event) }
        ensures never_merged { (entry : ℕ) → result ≢ Ok (Put.Merged entry) }
        ensures err { OnErr result (self.new ≡ self.old) }
        ensures moved { Makes 1 self.old self.new }
    {
        self.ask_notice(&event.notice())
    }

    /// Puts a permission event on the queue, as [`Listener::ask`] does. The event is copied only where
    /// it is queued.
    #[tactic(auto, unfolding(crate::specs::Queue::put))]
    pub fn ask_notice(&mut self, event: &Notice<'_>) -> Result<Put, NoMemory>
        requires permission { event.now.perm ≡ true }
        requires entries { self.old.next_entry ≤ 2 ^ 31 }
        ensures ok { IfOk result (λ outcome. (outcome, self.new) ≡ put self.old event.now) }
        ensures never_merged { (entry : ℕ) → result ≢ Ok (Put.Merged entry) }
        ensures err { OnErr result (self.new ≡ self.old) }
        ensures moved { Makes 1 self.old self.new }
    {
        match &mut self.state {
            State::Kept(kept) => kept.ask(event),
            State::Shut(_) => Ok(Put::Closed),
        }
    }

    /// Puts an event that is no permission event on the queue, or merges it into the first queued
    /// event with its key. `NoMemory` changes nothing.
    pub fn tell(&mut self, event: Event) -> Result<Put, NoMemory>
        requires notice { event.perm ≡ false }
        requires entries { self.old.next_entry ≤ 2 ^ 31 }
        ensures ok { IfOk result (λ outcome. (outcome, self.new) ≡ put self.old event) }
        ensures err { OnErr result (self.new ≡ self.old) }
        ensures moved { Makes 1 self.old self.new }
    {
        self.tell_notice(&event.notice())
    }

    /// Puts an event that is no permission event on the queue, as [`Listener::tell`] does. The event is
    /// copied only where it is queued.
    #[tactic(auto, unfolding(crate::specs::Queue::put))]
    pub fn tell_notice(&mut self, event: &Notice<'_>) -> Result<Put, NoMemory>
        requires notice { event.now.perm ≡ false }
        requires entries { self.old.next_entry ≤ 2 ^ 31 }
        ensures ok { IfOk result (λ outcome. (outcome, self.new) ≡ put self.old event.now) }
        ensures err { OnErr result (self.new ≡ self.old) }
        ensures moved { Makes 1 self.old self.new }
    {
        match &mut self.state {
            State::Kept(kept) => kept.tell(event),
            State::Shut(_) => Ok(Put::Closed),
        }
    }

    /// The records of the longest front of the queue that fits into `size` bytes: each has 24 bytes,
    /// and in a group with handles its information records. They leave the queue, and permission
    /// events among them wait for an answer. `Closed`, `Again` if nothing is queued and `Small` if the
    /// first record is longer than `size` come in this order, and `NoMemory` after them. A refusal
    /// changes nothing.
    #[tactic(auto, unfolding(crate::specs::Records::read_of))]
    pub fn read(&mut self, size: u32) -> Result<Vec<u8>, ReadRefused>
        requires { self.old.next_fd < 2 ^ 30 }
        ensures ok { IfOk result (λ bytes. read_of self.old size ≡ Ok (bytes.items, self.new)) }
        ensures refused { IfErr result (λ why.
            IfSome (read_errno why) (λ errno. read_of self.old size ≡ Err errno)) }
        ensures memory { result ≡ Err ReadRefused.NoMemory → IsOk (read_of self.old size) }
        ensures err { OnErr result (self.new ≡ self.old) }
        ensures moved { Makes 0 self.old self.new }
    {
        match &mut self.state {
            State::Kept(kept) => kept.read(size),
            State::Shut(_) => Err(ReadRefused::Closed),
        }
    }

    /// Takes a response of eight bytes: the descriptor, and 1 to allow or 2 to deny. `Closed`,
    /// `Length`, `Value` and `NotPending` come in this order, and change nothing. Allocates nothing.
    #[tactic(auto, unfolding(crate::specs::Responses::written))]
    pub fn write(&mut self, bytes: &[u8]) -> Result<Answered, WriteRefused>
        ensures ok { IfOk result (λ answered.
            written self.old bytes.now ≡ Ok (answered, self.new)) }
        ensures refused { IfErr result (λ why. written self.old bytes.now ≡ Err (write_errno why)) }
        ensures length { result ≡ Err WriteRefused.Length → length bytes.now ≢ 8 }
        ensures value { result ≡ Err WriteRefused.Value → length bytes.now ≡ 8 }
        ensures err { OnErr result (self.new ≡ self.old) }
        ensures moved { Makes 0 self.old self.new }
    {
        match &mut self.state {
            State::Kept(kept) => kept.write(bytes),
            State::Shut(_) => Err(WriteRefused::Closed),
        }
    }

    /// The answer to the permission event of an entry. An answer other than `Waiting` is taken by
    /// this call. Without a verdict it is `Closed` if the listener is, else `Waiting`. Allocates
    /// nothing.
    #[tactic(auto, unfolding(crate::specs::Responses::answer_of))]
    pub fn answer_of(&mut self, entry: u64) -> Answer
        ensures answer { (result, self.new) ≡ answer_of self.old entry }
        ensures moved { Makes 0 self.old self.new }
    {
        match &mut self.state {
            State::Kept(kept) => kept.answer_of(entry),
            State::Shut(_) => Answer::Closed,
        }
    }

    /// Closes the listener, and gives back the memory of its queue and of the events without an
    /// answer. These wait no more, and an answer that was given stays. Allocates nothing.
    #[tactic(auto, unfolding(crate::specs::Responses::closed_of))]
    pub fn close(&mut self)
        ensures closed { self.new ≡ closed_of self.old }
        ensures moved { Makes 0 self.old self.new }
    {
        let State::Kept(kept) = &mut self.state else {
            return;
        };
        kept.close();
        if let Some(shut) = kept.shut() {
            self.state = State::Shut(shut);
        }
    }
}
