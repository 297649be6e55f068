// The listeners of all groups, and calls of the one at an index.
ghost use Rattle.std.specs.Prelude.{◌≡◌, ◌+◌, ◌-◌, ◌<◌, ◌≤◌, ◌^◌, ◌++◌, ℕ, Ok, Err, Some, None, true, false, length, slice_get, slice_set, IfOk, IfErr, IfSome, IfNone, IsOk, OnErr, count_by};
ghost use Rattle.fan_groups.specs.Bounds.{AreBounded};
ghost use Rattle.fan_event.specs.Events.{event_for};
ghost use Rattle.fan_event.specs.Names.{IsName};
ghost use Rattle.fan_listener.specs.Groups.{called_at, is_open, listener_at, open_listener, tried_at};
ghost use Rattle.fan_listener.specs.Queue.{put};
ghost use Rattle.fan_listener.specs.Records.{read_of};
ghost use Rattle.fan_listener.specs.Refusals.{read_errno};
ghost use Rattle.fan_listener.specs.Responses.{answer_of, closed_of, written};

use fan_bits::{Errno, Happening};
use fan_event::notice_for;
use fan_io::NoMemory;
use fan_listener::{Answer, Answered, Listener, Put, ReadRefused};

/// The index of a group's listener.
pub(crate) fn index_of(listeners: &[Listener], group: u32) -> Option<usize>
    ensures found { IfSome result (λ index. listener_at listeners.now group
        ≡ slice_get listeners.now index) }
    ensures index { IfSome result (λ index. index + 1 ≡ group) }
    ensures within { IfSome result (λ index. index < length listeners.now) }
    ensures none { IfNone result (listener_at listeners.now group ≡ None) }
{
    if group == 0 {
        return None;
    }
    let index = group as usize - 1;
    if index >= listeners.len() {
        return None;
    }
    Some(index)
}

/// The index of a group's listener, if the group is open.
pub(crate) fn index_of_open(listeners: &[Listener], group: u32) -> Option<usize>
    ensures found { IfSome result (λ index. open_listener listeners.now group
        ≡ slice_get listeners.now index) }
    ensures index { IfSome result (λ index. index + 1 ≡ group) }
    ensures within { IfSome result (λ index. index < length listeners.now) }
    ensures still_open { IfSome result (λ index.
        IfSome (slice_get listeners.now index) (λ listener. listener.closed ≡ false)) }
    ensures none { IfNone result (open_listener listeners.now group ≡ None) }
{
    let index = index_of(listeners, group)?;
    if listeners[index].is_closed() {
        return None;
    }
    Some(index)
}

/// Reads the queue of the listener at an index.
pub(crate) fn read_at(
    listeners: &mut Vec<Listener>,
    index: usize,
    size: u32,
) -> Result<Vec<u8>, ReadRefused>
    requires within { index < length listeners.old.items }
    requires bounded { AreBounded (2 ^ 30 - 1) listeners.old.items }
    ensures ok { IfOk result (λ bytes.
        tried_at (λ listener. read_of listener size) listeners.old.items
        (index + 1) (slice_get listeners.old.items index) ≡ Ok (bytes.items, listeners.new.items)) }
    ensures refused { IfErr result (λ why. IfSome (read_errno why) (λ errno.
        tried_at (λ listener. read_of listener size) listeners.old.items
        (index + 1) (slice_get listeners.old.items index) ≡ Err errno)) }
    ensures memory { result ≡ Err ReadRefused.NoMemory → IsOk
        (tried_at (λ listener. read_of listener size) listeners.old.items
        (index + 1) (slice_get listeners.old.items index)) }
    ensures err { OnErr result (listeners.new.items ≡ listeners.old.items) }
    ensures count { count_by is_open listeners.new.items ≡ count_by is_open listeners.old.items }
    ensures bounds { (calls : ℕ) → AreBounded calls listeners.old.items
        → AreBounded (calls + 1) listeners.new.items }
{
    let listener = &mut listeners[index];
    listener.read(size)
}

/// Takes a response of the listener at an index. Allocates nothing.
pub(crate) fn write_at(
    listeners: &mut Vec<Listener>,
    index: usize,
    bytes: &[u8],
) -> Result<Answered, Errno>
    requires { index < length listeners.old.items }
    ensures ok { IfOk result (λ answered. tried_at (λ listener. written listener bytes.now)
        listeners.old.items (index + 1) (slice_get listeners.old.items index)
        ≡ Ok (answered, listeners.new.items)) }
    ensures refused { IfErr result (λ errno. tried_at (λ listener. written listener bytes.now)
        listeners.old.items (index + 1) (slice_get listeners.old.items index) ≡ Err errno) }
    ensures err { OnErr result (listeners.new.items ≡ listeners.old.items) }
    ensures count { count_by is_open listeners.new.items ≡ count_by is_open listeners.old.items }
    ensures bounds { (calls : ℕ) → AreBounded calls listeners.old.items
        → AreBounded (calls + 1) listeners.new.items }
{
    let listener = &mut listeners[index];
    listener.write(bytes).map_err(|why| why.errno())
}

/// Puts a permission event on the queue of the listener at an index.
pub(crate) fn ask_at(
    listeners: &mut Vec<Listener>,
    index: usize,
    happening: &Happening,
    name: &[u8],
    bits: u32,
    pid: u32,
    tid: u32,
) -> Result<Put, NoMemory>
    requires name { IsName name.now }
    requires within { index < length listeners.old.items }
    requires entries { IfSome (slice_get listeners.old.items index)
        (λ listener. listener.next_entry ≤ 2 ^ 31) }
    ensures ok { IfOk result (λ outcome. (outcome, listeners.new.items) ≡ called_at Put.Closed
        (λ listener. put listener (event_for listener.flags happening.now name.now bits pid tid true))
        listeners.old.items (index + 1) (slice_get listeners.old.items index)) }
    ensures err { OnErr result (listeners.new.items ≡ listeners.old.items) }
    ensures count { count_by is_open listeners.new.items ≡ count_by is_open listeners.old.items }
{
    let listener = &mut listeners[index];
    let init = listener.init();
    let event = notice_for(init, happening, name, bits, pid, tid, true);
    listener.ask_notice(&event)
}

/// Puts an event that needs no answer on the queue of the listener at an index.
pub(crate) fn tell_at(
    listeners: &mut Vec<Listener>,
    index: usize,
    happening: &Happening,
    name: &[u8],
    bits: u32,
    pid: u32,
    tid: u32,
) -> Result<Put, NoMemory>
    requires name { IsName name.now }
    requires within { index < length listeners.old.items }
    requires entries { IfSome (slice_get listeners.old.items index)
        (λ listener. listener.next_entry ≤ 2 ^ 31) }
    ensures ok { IfOk result (λ outcome. (outcome, listeners.new.items) ≡ called_at Put.Closed
        (λ listener. put listener (event_for listener.flags happening.now name.now bits pid tid false))
        listeners.old.items (index + 1) (slice_get listeners.old.items index)) }
    ensures err { OnErr result (listeners.new.items ≡ listeners.old.items) }
    ensures count { count_by is_open listeners.new.items ≡ count_by is_open listeners.old.items }
{
    let listener = &mut listeners[index];
    let init = listener.init();
    let event = notice_for(init, happening, name, bits, pid, tid, false);
    listener.tell_notice(&event)
}

/// The answer of the listener at an index to one of its entries. Allocates nothing.
pub(crate) fn answer_at(listeners: &mut Vec<Listener>, index: usize, entry: u64) -> Answer
    requires { index < length listeners.old.items }
    ensures answer { (result, listeners.new.items) ≡ called_at Answer.Closed
        (λ listener. answer_of listener entry) listeners.old.items
        (index + 1) (slice_get listeners.old.items index) }
    ensures count { count_by is_open listeners.new.items ≡ count_by is_open listeners.old.items }
{
    let listener = &mut listeners[index];
    listener.answer_of(entry)
}

/// Closes the listener at an index, which is open. Allocates nothing.
pub(crate) fn close_at(listeners: &mut Vec<Listener>, index: usize)
    requires within { index < length listeners.old.items }
    requires still_open { IfSome (slice_get listeners.old.items index)
        (λ listener. listener.closed ≡ false) }
    ensures closed { IfSome (slice_get listeners.old.items index) (λ listener.
        listeners.new.items ≡ slice_set listeners.old.items index (closed_of listener)) }
    ensures count { count_by is_open listeners.new.items + 1
        ≡ count_by is_open listeners.old.items }
    ensures bounds { (calls : ℕ) → AreBounded calls listeners.old.items
        → AreBounded (calls + 1) listeners.new.items }
{
    let listener = &mut listeners[index];
    listener.close();
}
