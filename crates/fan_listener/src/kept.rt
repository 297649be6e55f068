// What the listener of a group keeps: fanotify(7). When a permission event is queued, room is found for
// all that it needs later, so that no later call needs memory for an answer.
ghost use Rattle.std.specs.Prelude.{◌≡◌, ◌≢◌, ℕ, ◌+◌, ◌-◌, ◌^◌, ◌<◌, ◌≤◌, true, false, not, ◌&&◌, length, Ok, Err, IsOk, IfOk, IfErr, IfNone, IfSome, OnOk, OnErr};
ghost use Rattle.fan_listener.specs.ListenerState.{new_listener};
ghost use Rattle.fan_queue.specs.Queue.{is_full};
ghost use Rattle.fan_listener.specs.Queue.{put, limit_of, queue_of};
ghost use Rattle.fan_listener.specs.Records.{front_within, has_fd, read_front, read_of, records};
ghost use Rattle.fan_listener.specs.Refusals.{read_errno, write_errno};
ghost use Rattle.fan_listener.specs.Responses.{written, answered, waiting_under, answer_of, closed_of};
ghost use Rattle.fan_listener.specs.Bounds.{Makes};
ghost use Rattle.fan_listener.specs.Shut.{shut_state};

use super::answers::{Answer, Answered, Pending, ReadRefused, Verdict, WriteRefused};
use super::asked::AskedEvents;
use super::records::{drop_front, first_is_longer, front_within, take_entries};
use super::responses::{fd_field, take_waiting, value_field, verdict};
use super::rooms::{Rooms, forget_all, take_verdict};
use super::shut::Shut;
use fan_bits::InitWords;
use fan_event::Notice;
use fan_io::NoMemory;
use fan_map::Map;
use fan_queue::{Put, Queue};
use std::alloc::Global;
use std::marker::Model;

/// What a listener keeps.
#[derive(Drop)]
pub(crate) struct KeptListener {
    alloc: Global,
    init: InitWords,
    // How many entries fill the queue.
    limit: u32,
    queue: Queue,
    // The permission events without a verdict, those that are queued among them.
    asked: AskedEvents,
    // The room for the verdict on each of them, and the verdicts that were given and not taken yet.
    rooms: Rooms,
    // The descriptor of the next event that is read, from 0.
    next_fd: u32,
    // The descriptor that the next event to be queued will get.
    ahead: u32,
    closed: bool,
}

impl Model for KeptListener {
    ghost use Rattle.std.specs.Prelude.{filter};
    ghost use Rattle.fan_listener.specs.ListenerState.{ListenerState};
    ghost use Rattle.fan_listener.specs.Stored.{IsStored, answers_in, is_read};

    ghost Value = { ListenerState };

    ghost view = { λ l. record {
      flags = l.init.bits;
      limit = l.limit;
      queue = l.queue.entries;
      pending = filter (is_read l.next_fd) l.asked.events;
      answers = answers_in l.rooms.entries;
      next_entry = l.queue.next_entry;
      next_fd = l.next_fd;
      closed = l.closed;
    } };

    ghost invariant = { λ l.
        IsStored l.init.bits l.limit l.queue l.ahead l.next_fd l.asked.events
        l.rooms.entries };
}

impl KeptListener {
    /// A listener with nothing queued. At `limit` entries, from 1 to 16,384, the queue is full and the
    /// lost entry stands for further events; with FAN_UNLIMITED_QUEUE it has no limit.
    #[tactic(auto, unfolding(crate::specs::ListenerState::new_listener, fan_queue::specs::QueueState::new_queue))]
    pub(crate) fn new(alloc: Global, init: InitWords, limit: u32) -> Result<KeptListener, NoMemory>
        requires some { 1 ≤ limit }
        requires most { limit ≤ 16384 }
        ensures { IfOk result (λ made. made ≡ new_listener init.bits limit) }
    {
        Ok(KeptListener {
            alloc,
            init,
            limit,
            queue: Queue::new(alloc, limit_of(init, limit)),
            asked: AskedEvents::new(alloc),
            rooms: Map::new(alloc),
            next_fd: 0,
            ahead: 0,
            closed: false,
        })
    }

    /// The flags with which it was made.
    pub(crate) fn init(&self) -> InitWords
        ensures { result.bits ≡ self.now.flags }
    {
        self.init
    }

    /// Whether it was closed.
    pub(crate) fn is_closed(&self) -> bool
        ensures { result ≡ self.now.closed }
    {
        self.closed
    }

    /// How many entries it made so far.
    pub(crate) fn entries_made(&self) -> u64
        ensures { result ≡ self.now.next_entry - 1 }
    {
        self.queue.next_entry().saturating_sub(1)
    }

    /// How many descriptors it gave out so far.
    pub(crate) fn fds_given(&self) -> u32
        ensures { result ≡ self.now.next_fd }
    {
        self.next_fd
    }

    /// Puts a permission event on the queue. It is never merged. Memory is found here for its answer
    /// too; no response can name one that is reported by handles. `NoMemory` changes nothing.
    pub(crate) fn ask(&mut self, event: &Notice<'_>) -> Result<Put, NoMemory>
        requires permission { event.now.perm ≡ true }
        requires entries { self.old.next_entry ≤ 2 ^ 31 }
        ensures ok { IfOk result (λ outcome. (outcome, self.new) ≡ put self.old event.now) }
        ensures never_merged { (entry : ℕ) → result ≢ Ok (Put.Merged entry) }
        ensures err { OnErr result (self.new ≡ self.old) }
        ensures moved { Makes 1 self.old self.new }
    {
        if event.has_fd() && !self.is_full() {
            self.put_asked(event)
        } else {
            self.put_without_fd(event)
        }
    }

    /// Puts an event that is no permission event on the queue, or merges it into the first queued
    /// event with its key. `NoMemory` changes nothing.
    pub(crate) fn tell(&mut self, event: &Notice<'_>) -> Result<Put, NoMemory>
        requires notice { event.now.perm ≡ false }
        requires entries { self.old.next_entry ≤ 2 ^ 31 }
        ensures ok { IfOk result (λ outcome. (outcome, self.new) ≡ put self.old event.now) }
        ensures err { OnErr result (self.new ≡ self.old) }
        ensures moved { Makes 1 self.old self.new }
    {
        if event.has_fd() {
            self.put_told(event)
        } else {
            self.put_without_fd(event)
        }
    }

    // Whether the queue is as long as its limit allows.
    fn is_full(&self) -> bool
        ensures { result ≡ is_full (queue_of self.now) }
    {
        self.queue.is_full()
    }

    // Puts an event on the queue that gets no descriptor there: it is reported by handles, or the queue is
    // full.
    fn put_without_fd(&mut self, event: &Notice<'_>) -> Result<Put, NoMemory>
        requires no_fd { (has_fd event.now.target && not (is_full (queue_of self.old))) ≡ false }
        requires entries { self.old.next_entry ≤ 2 ^ 31 }
        ensures ok { IfOk result (λ outcome. (outcome, self.new) ≡ put self.old event.now) }
        ensures never_merged { event.now.perm ≡ true
            → (entry : ℕ) → result ≢ Ok (Put.Merged entry) }
        ensures err { OnErr result (self.new ≡ self.old) }
    {
        if self.closed {
            return Ok(Put::Closed);
        }
        let put = self.queue.put_notice(event)?;
        Ok(put)
    }

    // Puts a permission event on the queue, and among those without a verdict if it was queued.
    fn put_asked(&mut self, event: &Notice<'_>) -> Result<Put, NoMemory>
        requires permission { event.now.perm ≡ true }
        requires descriptor { has_fd event.now.target ≡ true }
        requires entries { self.old.next_entry ≤ 2 ^ 31 }
        ensures ok { IfOk result (λ outcome. (outcome, self.new) ≡ put self.old event.now) }
        ensures never_merged { (entry : ℕ) → result ≢ Ok (Put.Merged entry) }
        ensures err { OnErr result (self.new ≡ self.old) }
    {
        if self.closed {
            return Ok(Put::Closed);
        }
        self.asked.reserve()?;
        self.rooms.reserve()?;
        let copy = event.to_event(self.alloc)?;
        let put = self.queue.put_notice(event)?;
        let Put::Queued { entry } = put else {
            return Ok(put);
        };
        self.asked.push_reserved(Pending {
            fd: self.ahead,
            entry,
            event: copy,
        });
        self.rooms.insert_reserved(entry, None);
        self.ahead += 1;
        Ok(put)
    }

    // Puts an event that is no permission event on the queue.
    fn put_told(&mut self, event: &Notice<'_>) -> Result<Put, NoMemory>
        requires notice { event.now.perm ≡ false }
        requires descriptor { has_fd event.now.target ≡ true }
        requires entries { self.old.next_entry ≤ 2 ^ 31 }
        ensures ok { IfOk result (λ outcome. (outcome, self.new) ≡ put self.old event.now) }
        ensures err { OnErr result (self.new ≡ self.old) }
    {
        if self.closed {
            return Ok(Put::Closed);
        }
        let put = self.queue.put_notice(event)?;
        let Put::Queued { .. } = put else {
            return Ok(put);
        };
        self.ahead += 1;
        Ok(put)
    }

    /// The records of the longest front of the queue that fits into `size` bytes: each has 24 bytes,
    /// and in a group with handles its information records. They leave the queue, and permission
    /// events among them wait for an answer. `Closed`, `Again` if nothing is queued and `Small` if the
    /// first record is longer than `size` come in this order, and `NoMemory` after them. A refusal
    /// changes nothing.
    #[tactic(auto, unfolding(crate::specs::Records::read_of))]
    pub(crate) fn read(&mut self, size: u32) -> Result<Vec<u8>, ReadRefused>
        requires { self.old.next_fd < 2 ^ 30 }
        ensures ok { IfOk result (λ bytes. read_of self.old size ≡ Ok (bytes.items, self.new)) }
        ensures refused { IfErr result (λ why.
            IfSome (read_errno why) (λ errno. read_of self.old size ≡ Err errno)) }
        ensures memory { result ≡ Err ReadRefused.NoMemory → IsOk (read_of self.old size) }
        ensures err { OnErr result (self.new ≡ self.old) }
        ensures moved { Makes 0 self.old self.new }
    {
        if self.closed {
            return Err(ReadRefused::Closed);
        }
        if self.queue.is_empty() {
            return Err(ReadRefused::Again);
        }
        if first_is_longer(&self.queue, size) {
            return Err(ReadRefused::Small);
        }
        match self.read_front(size) {
            Ok(bytes) => Ok(bytes),
            Err(NoMemory) => Err(ReadRefused::NoMemory),
        }
    }

    // Reads the front that fits.
    #[tactic(auto, unfolding(crate::specs::Records::read_front))]
    fn read_front(&mut self, size: u32) -> Result<Vec<u8>, NoMemory>
        requires { self.old.next_fd < 2 ^ 30 }
        ensures bytes { let front = front_within size self.old.queue in
            IfOk result (λ bytes. bytes.items ≡ records self.old.next_fd front) }
        ensures ok { let front = front_within size self.old.queue in
            OnOk result (self.new ≡ read_front self.old front) }
        ensures err { OnErr result (self.new ≡ self.old) }
    {
        let front = front_within(&self.queue, size);
        let taken = take_entries(self.alloc, &self.queue, front, self.next_fd)?;
        drop_front(&mut self.queue, front.count);
        self.next_fd = taken.next_fd;
        Ok(taken.bytes)
    }

    /// Takes a response of eight bytes: the descriptor, and 1 to allow or 2 to deny. `Closed`,
    /// `Length`, `Value` and `NotPending` come in this order, and change nothing. Allocates nothing.
    #[tactic(auto, unfolding(crate::specs::Responses::written))]
    pub(crate) fn write(&mut self, bytes: &[u8]) -> Result<Answered, WriteRefused>
        ensures ok { IfOk result (λ answered.
            written self.old bytes.now ≡ Ok (answered, self.new)) }
        ensures refused { IfErr result (λ why. written self.old bytes.now ≡ Err (write_errno why)) }
        ensures length { result ≡ Err WriteRefused.Length → length bytes.now ≢ 8 }
        ensures value { result ≡ Err WriteRefused.Value → length bytes.now ≡ 8 }
        ensures err { OnErr result (self.new ≡ self.old) }
        ensures moved { Makes 0 self.old self.new }
    {
        if self.closed {
            return Err(WriteRefused::Closed);
        }
        if bytes.len() != 8 {
            return Err(WriteRefused::Length);
        }
        let Some(verdict) = verdict(value_field(bytes)) else {
            return Err(WriteRefused::Value);
        };
        let Some(entry) = self.give_verdict(fd_field(bytes), verdict) else {
            return Err(WriteRefused::NotPending);
        };
        Ok(Answered { entry })
    }

    // Gives the verdict on the event that waits under a descriptor: the number of its entry.
    fn give_verdict(&mut self, fd: u32, verdict: Verdict) -> Option<u64>
        ensures entry { result ≡ waiting_under fd self.old.pending }
        ensures given { IfSome result (λ entry. self.new ≡ answered self.old fd entry verdict) }
        ensures none { IfNone result (self.new ≡ self.old) }
    {
        let pending = take_waiting(&mut self.asked, self.next_fd, fd)?;
        self.rooms.replace(&pending.entry, Some(verdict));
        Some(pending.entry)
    }

    /// The answer to the permission event of an entry. An answer other than `Waiting` is taken by
    /// this call. Without a verdict it is `Closed` if the listener is, else `Waiting`. Allocates
    /// nothing.
    #[tactic(auto, unfolding(crate::specs::Responses::answer_of))]
    pub(crate) fn answer_of(&mut self, entry: u64) -> Answer
        ensures answer { (result, self.new) ≡ answer_of self.old entry }
        ensures moved { Makes 0 self.old self.new }
    {
        match take_verdict(&mut self.rooms, entry) {
            Some(verdict) => Answer::from(verdict),
            None if self.closed => Answer::Closed,
            None => Answer::Waiting,
        }
    }

    /// What is left of it once it is closed and its verdicts were taken; None before.
    pub(crate) fn shut(&self) -> Option<Shut>
        ensures { IfSome result (λ shut. self.now ≡ shut_state shut) }
    {
        if !self.closed || !self.queue.is_empty() {
            return None;
        }
        if !self.rooms.is_empty() {
            return None;
        }
        Some(Shut {
            init: self.init,
            limit: self.limit,
            next_entry: self.queue.next_entry(),
            next_fd: self.next_fd,
        })
    }

    /// Closes the listener, and gives back the memory of its queue and of the events without an
    /// answer. These wait no more, and an answer that was given stays. Allocates nothing.
    #[tactic(auto, unfolding(crate::specs::Responses::closed_of))]
    pub(crate) fn close(&mut self)
        ensures closed { self.new ≡ closed_of self.old }
        ensures moved { Makes 0 self.old self.new }
    {
        self.closed = true;
        self.queue.clear();
        self.ahead = self.next_fd;
        forget_all(&mut self.asked, &mut self.rooms);
        self.asked = AskedEvents::new(self.alloc);
    }
}

// How many entries fill the queue of a group with these flags.
fn limit_of(init: InitWords, limit: u32) -> Option<u32>
    ensures { result ≡ limit_of init.bits limit }
{
    if init.unlimited_queue() {
        None
    } else {
        Some(limit)
    }
}
