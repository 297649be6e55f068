// The records of a read: fanotify(7), "Reading fanotify events".
ghost use Rattle.std.specs.Prelude.{◌≡◌, ℕ, ◌+◌, ◌*◌, ◌^◌, ◌<◌, ◌≤◌, ◌++◌, length, take, drop, IfOk, OnOk};
ghost use Rattle.fan_listener.specs.Records.{fd_after, fd_field, first_is_longer, front_within, has_fd, mask_field, next_fd_after, record_len, record_of, records, takes_fd};

use fan_bits::{FAN_ONDIR, FAN_Q_OVERFLOW};
use fan_event::{Event, Target};
use fan_fid::{infos_len, write_infos};
use fan_io::NoMemory;
use fan_queue::{Body, Entry, Queue};
use fan_record::write_record;
use std::alloc::Global;

// The length of a record before its information records: `struct fanotify_event_metadata`.
const METADATA_LEN: u32 = 24;

// FAN_NOFD: no descriptor.
const NOFD: i32 = -1;

// What a read takes from the front of a queue.
#[derive(Clone, Copy)]
pub(crate) struct Front {
    // How many entries.
    pub(crate) count: usize,
    // How many bytes their records have.
    pub(crate) bytes: u32,
}

// What a read of some entries gives.
#[derive(Drop)]
pub(crate) struct Taken {
    // The records.
    pub(crate) bytes: Vec<u8>,
    // The next descriptor.
    pub(crate) next_fd: u32,
}

// Whether an object is reported by a descriptor, and not by handles.
fn has_fd(target: &Target) -> bool
    ensures { result ≡ has_fd target.now }
{
    matches!(target, Target::Fd { .. })
}

// Whether a record takes a descriptor.
fn takes_fd(body: &Body) -> bool
    ensures { result ≡ takes_fd body.now }
{
    match body {
        Body::Told(event) => has_fd(&event.target),
        Body::Lost => false,
    }
}

// How many bytes the record of an entry has.
fn record_len(body: &Body) -> u32
    ensures value { result ≡ record_len body.now }
    ensures most { result ≤ 336 }
{
    match body {
        Body::Told(event) => METADATA_LEN + infos_len(&event.target),
        Body::Lost => METADATA_LEN,
    }
}

// Whether the first record has more than these bytes.
pub(crate) fn first_is_longer(queue: &Queue, size: u32) -> bool
    ensures { result ≡ first_is_longer size queue.now.entries }
{
    match queue.front() {
        Some(entry) => record_len(&entry.body) > size,
        None => false,
    }
}

// The longest front of a queue whose records have no more than these bytes.
pub(crate) fn front_within(queue: &Queue, size: u32) -> Front
    ensures within { result.count ≤ length queue.now.entries }
    ensures small { 24 * result.count ≤ size }
    ensures front { take result.count queue.now.entries ≡ front_within size queue.now.entries }
{
    let mut bytes = 0;
    for index in 0..queue.len() {
        let Some(entry) = queue.get(index) else {
            unreachable!();
        };
        let len = record_len(&entry.body);
        if size - bytes < len {
            return Front {
                count: index,
                bytes,
            };
        }
        bytes += len;
    }
    Front {
        count: queue.len(),
        bytes,
    }
}

// The records of a front, the first of which would have this descriptor.
pub(crate) fn take_entries(
    alloc: Global,
    queue: &Queue,
    front: Front,
    first_fd: u32,
) -> Result<Taken, NoMemory>
    requires within { front.count ≤ length queue.now.entries }
    requires few { first_fd + front.count < 2 ^ 31 }
    ensures bytes { IfOk result (λ taken.
        taken.bytes.items ≡ records first_fd (take front.count queue.now.entries)) }
    ensures next { IfOk result (λ taken.
        taken.next_fd ≡ next_fd_after first_fd (take front.count queue.now.entries)) }
{
    let mut taken = Taken {
        bytes: Vec::new(alloc),
        next_fd: first_fd,
    };
    taken.bytes.reserve(front.bytes as usize)?;
    for index in 0..front.count {
        let Some(entry) = queue.get(index) else {
            unreachable!();
        };
        take_entry(&mut taken, entry)?;
    }
    Ok(taken)
}

// The record of one entry more.
fn take_entry(taken: &mut Taken, entry: &Entry) -> Result<(), NoMemory>
    requires { taken.old.next_fd < 2 ^ 31 }
    ensures bytes { OnOk result (taken.new.bytes.items
        ≡ taken.old.bytes.items ++ record_of taken.old.next_fd entry.now.body) }
    ensures next { OnOk result (taken.new.next_fd ≡ fd_after taken.old.next_fd entry.now.body) }
{
    write_entry(&mut taken.bytes, taken.next_fd, &entry.body)?;
    if takes_fd(&entry.body) {
        taken.next_fd += 1;
    }
    Ok(())
}

// Appends the record of an entry, whose event would have this descriptor.
fn write_entry(out: &mut Vec<u8>, fd: u32, body: &Body) -> Result<(), NoMemory>
    requires { fd < 2 ^ 31 }
    ensures { OnOk result (out.new.items ≡ out.old.items ++ record_of fd body.now) }
{
    let len = record_len(body);
    match body {
        Body::Told(event) => {
            let fd = fd_field(fd, &event.target);
            write_record(out, len, mask_field(event), fd, event.who)?;
            write_infos(out, &event.target)
        }
        Body::Lost => write_record(out, len, u64::from(FAN_Q_OVERFLOW), NOFD, 0),
    }
}

// The mask of an event's record. Beside handles it tells with FAN_ONDIR of a directory.
fn mask_field(event: &Event) -> u64
    ensures { result ≡ mask_field event.now }
{
    if event.ondir && !has_fd(&event.target) {
        return u64::from(event.bits | FAN_ONDIR);
    }
    u64::from(event.bits)
}

// The descriptor in an event's record. Beside handles it is FAN_NOFD.
fn fd_field(fd: u32, target: &Target) -> i32
    requires { fd < 2 ^ 31 }
    ensures { result ≡ fd_field fd target.now }
{
    match target {
        Target::Fd { .. } => fd as i32,
        Target::Handle { .. } => NOFD,
    }
}

// The entries at the front leave the queue.
pub(crate) fn drop_front(queue: &mut Queue, count: usize)
    requires { count ≤ length queue.old.entries }
    ensures entries { queue.new.entries ≡ drop count queue.old.entries }
    ensures same_limit { queue.new.limit ≡ queue.old.limit }
    ensures same_next { queue.new.next_entry ≡ queue.old.next_entry }
{
    for _ in 0..count {
        queue.take();
    }
}
