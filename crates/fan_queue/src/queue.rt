// The queue itself.
ghost use Rattle.std.specs.Prelude.{◌≡◌, ◌≢◌, ℕ, ◌<◌, ◌≤◌, ◌^◌, ◌↔◌, IsTrue, true, false, [], None, Some, Ok, IfNone, IfOk, IfSome, OnErr, OnOk, find, if◌then◌else◌, length, position, slice_get};
ghost use Rattle.std.specs.Option.{option_copied, option_map};
ghost use Rattle.std.specs.VecDeque.{deque_capacity, deque_len};
ghost use Rattle.fan_event.specs.Keys.{key_hash};
ghost use Rattle.fan_lists.specs.First.{change_first};
ghost use Rattle.fan_queue.specs.Keys.{key_in};
ghost use Rattle.fan_queue.specs.QueueState.{new_queue};
ghost use Rattle.fan_queue.specs.Queue.{is_full, is_lost, merged, put, put_event, put_lost, queued, taken, takes};
ghost use Rattle.fan_queue.specs.Queued.{CanBeQueued, IsQueue};

use super::entry::{Body, Entry, Put};
use super::keys::EntryKey;
use super::table::{Table, front_number};
use super::taker::taker;
use fan_event::{Event, Notice};
use fan_io::NoMemory;
use std::alloc::Global;
use std::collections::VecDeque;
use std::marker::Model;

/// The queue of a group: entries that wait to be read.
///
/// Contracts see its limit, the list of its entries from the front, and the number of the next.
#[derive(Drop)]
pub struct Queue {
    alloc: Global,
    // How many entries fill it, if it has a limit.
    limit: Option<u32>,
    // The entries, by their numbers: each has the number after that of the one before it.
    entries: VecDeque<Entry>,
    // The keys of the entries that may take bits.
    table: Table,
    // The number of the lost entry, if it is queued.
    lost: Option<u64>,
    // The number of the next entry, from 1.
    next_entry: u64,
}

impl Model for Queue {
    ghost use Rattle.fan_queue.specs.QueueState.{QueueState};
    ghost use Rattle.fan_queue.specs.Kept.{IsKept};

    ghost Value = { QueueState };

    ghost view = { λ q. record {
      limit = q.limit;
      entries = q.entries.items;
      next_entry = q.next_entry;
    } };

    ghost invariant = { λ q. IsKept q.entries.items q.table q.lost q.next_entry };
}

impl Queue {
    /// A queue with nothing in it. At `limit` entries it is full, and the lost entry stands for further
    /// events; with no limit it is never full. Takes no memory.
    #[tactic(auto, unfolding(crate::specs::QueueState::new_queue))]
    pub fn new(alloc: Global, limit: Option<u32>) -> Queue
        ensures { result ≡ new_queue limit }
    {
        Queue {
            alloc,
            limit,
            entries: VecDeque::new(alloc),
            table: Table::new(alloc),
            lost: None,
            next_entry: 1,
        }
    }

    /// How many entries are queued.
    pub fn len(&self) -> usize
        ensures count { result ≡ length self.now.entries }
        ensures whole { IsQueue self.now }
    {
        self.entries.len()
    }

    /// Whether nothing is queued.
    pub fn is_empty(&self) -> bool
        ensures { IsTrue result ↔ (self.now.entries ≡ []) }
    {
        self.entries.is_empty()
    }

    /// Whether it is as long as its limit allows: then no event is queued or merged, and the lost entry
    /// stands for each that is put.
    #[tactic(auto, unfolding(crate::specs::Queue::is_full))]
    pub fn is_full(&self) -> bool
        ensures { result ≡ is_full self.now }
    {
        match self.limit {
            Some(limit) => self.entries.len() >= limit as usize,
            None => false,
        }
    }

    /// The number of the next entry. The first is 1.
    pub fn next_entry(&self) -> u64
        ensures { result ≡ self.now.next_entry }
    {
        self.next_entry
    }

    /// The entry at the front.
    pub fn front(&self) -> Option<&Entry>
        ensures { option_copied result ≡ slice_get self.now.entries 0 }
    {
        self.entries.front()
    }

    /// The entry at an index, from 0 at the front.
    pub fn get(&self, index: usize) -> Option<&Entry>
        ensures { option_copied result ≡ slice_get self.now.entries index }
    {
        self.entries.get(index)
    }

    /// Takes the entry at the front away. Allocates nothing.
    pub fn take(&mut self) -> Option<Entry>
        ensures some { IfSome result (λ entry. taken self.old ≡ Some (entry, self.new)) }
        ensures none { IfNone result (taken self.old ≡ None) }
        ensures same { IfNone result (self.new ≡ self.old) }
    {
        let entry = self.entries.pop_front()?;
        self.lost = lost_without(self.lost, &entry);
        self.table.forget(&entry);
        Some(entry)
    }

    /// Takes all entries away, and gives their memory back. Allocates nothing.
    pub fn clear(&mut self)
        ensures { self.new ≡ record self.old { entries = [] } }
    {
        self.entries = VecDeque::new(self.alloc);
        self.table = Table::new(self.alloc);
        self.lost = None;
    }

    /// Puts an event on the queue, as [`Queue::put_notice`] does.
    ///
    /// # Errors
    /// `NoMemory` if the event, or the lost entry, had to be queued and no memory was found for it.
    pub fn put(&mut self, event: Event) -> Result<Put, NoMemory>
        requires { self.old.next_entry ≤ 2 ^ 31 }
        ensures ok { IfOk result (λ outcome. (outcome, self.new) ≡ put self.old event) }
        ensures never_merged { event.perm ≡ true → (entry : ℕ) → result ≢ Ok (Put.Merged entry) }
        ensures err { OnErr result (self.new ≡ self.old) }
    {
        self.put_notice(&event.notice())
    }

    /// Puts an event on the queue. A permission event is never merged. The event is copied only where it
    /// is queued: at the limit, and where it is merged, no memory is taken for it.
    ///
    /// # Errors
    /// `NoMemory` if the event, or the lost entry, had to be queued and no memory was found for it.
    #[tactic(auto, unfolding(crate::specs::Queue::put))]
    pub fn put_notice(&mut self, event: &Notice<'_>) -> Result<Put, NoMemory>
        requires { self.old.next_entry ≤ 2 ^ 31 }
        ensures ok { IfOk result (λ outcome. (outcome, self.new) ≡ put self.old event.now) }
        ensures never_merged { event.now.perm ≡ true
            → (entry : ℕ) → result ≢ Ok (Put.Merged entry) }
        ensures err { OnErr result (self.new ≡ self.old) }
    {
        if self.is_full() {
            return self.put_lost();
        }
        if event.is_permission() {
            return self.push_permission(event);
        }
        self.merge_or_push(event)
    }

    // Queues a permission event last.
    fn push_permission(&mut self, event: &Notice<'_>) -> Result<Put, NoMemory>
        requires few { self.old.next_entry ≤ 2 ^ 31 }
        requires permission { event.now.perm ≡ true }
        ensures ok { IfOk result (λ outcome. (outcome, self.new)
            ≡ put_event self.old event.now (find (takes event.now) self.old.entries)) }
        ensures never_merged { (entry : ℕ) → result ≢ Ok (Put.Merged entry) }
        ensures err { OnErr result (self.new ≡ self.old) }
    {
        let copy = event.to_event(self.alloc)?;
        let entry = self.push(Body::Told(copy), None)?;
        Ok(Put::Queued { entry })
    }

    // Merges an event that is no permission event into the entry that takes it, or queues it last.
    fn merge_or_push(&mut self, event: &Notice<'_>) -> Result<Put, NoMemory>
        requires few { self.old.next_entry ≤ 2 ^ 31 }
        requires notice { event.now.perm ≡ false }
        ensures ok { IfOk result (λ outcome. (outcome, self.new)
            ≡ put_event self.old event.now (find (takes event.now) self.old.entries)) }
        ensures err { OnErr result (self.new ≡ self.old) }
    {
        let hash = event.key_hash();
        if let Some(entry) = self.merge(event, hash) {
            return Ok(Put::Merged { entry });
        }
        let key = EntryKey {
            hash,
            number: self.next_entry(),
        };
        let copy = event.to_event(self.alloc)?;
        let entry = self.push(Body::Told(copy), Some(key))?;
        Ok(Put::Queued { entry })
    }

    // Lets the lost entry stand for an event, and queues it if there is none.
    fn put_lost(&mut self) -> Result<Put, NoMemory>
        requires { self.old.next_entry ≤ 2 ^ 31 }
        ensures ok { IfOk result (λ outcome.
            (outcome, self.new) ≡ put_lost self.old (find is_lost self.old.entries)) }
        ensures never_merged { (entry : ℕ) → result ≢ Ok (Put.Merged entry) }
        ensures err { OnErr result (self.new ≡ self.old) }
    {
        if let Some(entry) = self.lost {
            return Ok(Put::Overflow { entry });
        }
        let entry = self.push(Body::Lost, None)?;
        Ok(Put::Overflow { entry })
    }

    // Merges an event with the hash `hash` into the entry that takes it, and answers the number of this entry.
    fn merge(&mut self, event: &Notice<'_>, hash: u64) -> Option<u64>
        requires { hash ≡ key_hash event.now }
        ensures merged { IfSome result (λ entry. (Put.Merged entry, self.new)
            ≡ put_event self.old event.now (find (takes event.now) self.old.entries)) }
        ensures none { IfNone result (find (takes event.now) self.old.entries ≡ None) }
        ensures same { IfNone result (self.new ≡ self.old) }
    {
        let front = front_number(&self.entries, self.next_entry);
        let index = taker(&self.entries, &self.table, front, event, hash)?;
        Some(merge_at(&mut self.entries, index, event))
    }

    // Queues an entry last, under the next number, and answers this number. Its key is known.
    #[tactic(auto, unfolding(crate::specs::Queue::queued))]
    fn push(&mut self, body: Body, key: Option<EntryKey>) -> Result<u64, NoMemory>
        requires few { self.old.next_entry ≤ 2 ^ 31 }
        requires key { key ≡ key_in self.old.next_entry body }
        requires fits { CanBeQueued self.old.entries body }
        ensures number { IfOk result (λ number. number ≡ self.old.next_entry) }
        ensures ok { OnOk result (self.new ≡ queued self.old body) }
        ensures err { OnErr result (self.new ≡ self.old) }
    {
        reserve_for(&mut self.entries, &body)?;
        let number = self.next_entry;
        let entry = Entry { number, body };
        self.table
            .note_last(self.alloc, &self.entries, &entry, key)?;
        self.lost = lost_with(self.lost, &entry);
        self.entries.push_back_reserved(entry);
        self.next_entry += 1;
        Ok(number)
    }
}

// Makes room for one entry more. The lost entry comes to a full queue, of which it makes no larger one
// than it needs.
fn reserve_for(entries: &mut VecDeque<Entry>, body: &Body) -> Result<(), NoMemory>
    ensures items { entries.new.items ≡ entries.old.items }
    ensures room { OnOk result (deque_len entries.new < deque_capacity entries.new) }
{
    match body {
        Body::Told(_) => entries.reserve(1)?,
        Body::Lost => entries.reserve_exact(1)?,
    }
    Ok(())
}

// The first entry that takes the bits of an event takes them. Its number.
fn merge_at(entries: &mut VecDeque<Entry>, index: usize, event: &Notice<'_>) -> u64
    requires { position (takes event.now) entries.old.items ≡ Some index }
    ensures number { option_map (λ entry. entry.number) (find (takes event.now) entries.old.items)
        ≡ Some result }
    ensures entries { entries.new.items
        ≡ change_first (takes event.now) (merged event.now) entries.old.items }
{
    let entry = &mut entries[index];
    entry.merge(event);
    entry.number
}

// The number of the lost entry, if it is queued, once an entry came.
fn lost_with(lost: Option<u64>, entry: &Entry) -> Option<u64>
    ensures { result ≡ (if is_lost entry.now then Some entry.now.number else lost) }
{
    if entry.is_lost() {
        Some(entry.number)
    } else {
        lost
    }
}

// The number of the lost entry, if it is queued, once an entry went.
fn lost_without(lost: Option<u64>, entry: &Entry) -> Option<u64>
    ensures { result ≡ (if is_lost entry.now then None else lost) }
{
    if entry.is_lost() { None } else { lost }
}
