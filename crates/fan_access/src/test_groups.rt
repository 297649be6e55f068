// Two groups with a mark each, for the tests.
ghost use Rattle.std.specs.Prelude.{◌≡◌, ◌≤◌, ◌^◌, [], ◌∷◌, true, false, All, IfOk, IsTrue, OnErr};
ghost use Rattle.fan_bits.specs.Marks.{IsMarkList, next_on};
ghost use Rattle.fan_event.specs.Events.{event_for};
ghost use Rattle.fan_event.specs.Names.{IsName};
ghost use Rattle.fan_listener.specs.Queue.{put};

use crate::listeners::Listeners;
use fan_bits::{
    Class, Connectors, FAN_MODIFY, FAN_ONDIR, FAN_OPEN, FAN_OPEN_PERM, Happening, Kind, Mark,
    Order, init_words,
};
use fan_event::event_for;
use fan_io::NoMemory;
use fan_listener::{Answer, Listener, Put};
use std::alloc::Global;
use std::fmt::Write;

// The classes of fanotify_init(2).
const FAN_CLASS_CONTENT: u32 = 4;

const FAN_CLASS_PRE_CONTENT: u32 = 8;

// A filesystem, and a file on it.
pub(crate) const FS: u32 = 1;

pub(crate) const FILE: u32 = 4;

// A list of two marks, which is searched from the front.
#[derive(Drop)]
pub(crate) struct TwoMarks {
    marks: [Mark; 2],
}

impl Connectors for TwoMarks {
    ghost shows = { λ it marks. (marks ≡ it.marks) × IsMarkList marks };

    ghost is_list = { λ it marks shown. shown.1 };

    fn next(&mut self, object: u32, after: Order) -> Option<Mark> {
        find_next(&self.marks, object, after)
    }
}

// The mark on an object with the least order behind one.
fn find_next(marks: &[Mark], object: u32, after: Order) -> Option<Mark>
    ensures { result ≡ next_on marks.now object after.0 }
{
    marks
        .iter()
        .copied()
        .filter(|mark| mark.object == object)
        .find(|mark| mark.order() > after)
}

// Group 1 of FAN_CLASS_CONTENT has a mark on the filesystem, and group 2 of FAN_CLASS_PRE_CONTENT
// one on the file.
pub(crate) fn two_marks() -> TwoMarks
    ensures { IsMarkList result.marks }
{
    let on_fs = Mark {
        group: 1,
        class: Class::Content,
        object: FS,
        kind: Kind::Filesystem,
        mask: FAN_OPEN_PERM | FAN_OPEN | FAN_ONDIR,
        ignored: 0,
        survives: false,
    };
    let on_file = Mark {
        group: 2,
        class: Class::PreContent,
        object: FILE,
        kind: Kind::Inode,
        mask: FAN_OPEN_PERM | FAN_OPEN | FAN_MODIFY,
        ignored: 0,
        survives: false,
    };
    TwoMarks {
        marks: [on_fs, on_file],
    }
}

// Group 1 of FAN_CLASS_NOTIF has a mark for all events that need no answer on the filesystem, and
// group 2 of FAN_CLASS_PRE_CONTENT one for all that need one on the file.
pub(crate) fn marks_of_all() -> TwoMarks
    ensures { IsMarkList result.marks }
{
    let on_fs = Mark {
        group: 1,
        class: Class::Notif,
        object: FS,
        kind: Kind::Filesystem,
        mask: 0x4000_1fff,
        ignored: 0,
        survives: false,
    };
    let on_file = Mark {
        group: 2,
        class: Class::PreContent,
        object: FILE,
        kind: Kind::Inode,
        mask: 0x7_0000,
        ignored: 0,
        survives: false,
    };
    TwoMarks {
        marks: [on_fs, on_file],
    }
}

// The listeners of the two groups, and what each was asked and told.
#[derive(Drop)]
pub(crate) struct TwoGroups {
    alloc: Global,
    log: String,
    first: Listener,
    second: Listener,
}

impl Listeners for TwoGroups {
    ghost groups = { λ it. it.first ∷ it.second ∷ [] };

    #[tactic(auto, unfolding(fan_listener::specs::Groups::put_to))]
    fn ask(
        &mut self,
        group: u32,
        happening: &Happening,
        name: &[u8],
        bits: u32,
        pid: u32,
        tid: u32,
    ) -> Result<Put, NoMemory> {
        note(&mut self.log, "ask", group, happening, name, bits)?;
        match group {
            1 => ask(self.alloc, &mut self.first, happening, name, bits, pid, tid),
            2 => ask(
                self.alloc,
                &mut self.second,
                happening,
                name,
                bits,
                pid,
                tid,
            ),
            _ => Ok(Put::Closed),
        }
    }

    #[tactic(auto, unfolding(fan_listener::specs::Groups::put_to))]
    fn tell(
        &mut self,
        group: u32,
        happening: &Happening,
        name: &[u8],
        bits: u32,
        pid: u32,
        tid: u32,
    ) -> Result<Put, NoMemory> {
        note(&mut self.log, "tell", group, happening, name, bits)?;
        match group {
            1 => tell(self.alloc, &mut self.first, happening, name, bits, pid, tid),
            2 => tell(
                self.alloc,
                &mut self.second,
                happening,
                name,
                bits,
                pid,
                tid,
            ),
            _ => Ok(Put::Closed),
        }
    }

    #[tactic(auto, unfolding(fan_listener::specs::Groups::answer_from))]
    fn answer(&mut self, group: u32, entry: u64) -> Answer {
        match group {
            1 => self.first.answer_of(entry),
            2 => self.second.answer_of(entry),
            _ => Answer::Closed,
        }
    }
}

impl TwoGroups {
    // Two listeners with two entries at most.
    pub(crate) fn new(alloc: Global) -> Result<TwoGroups, NoMemory> {
        Ok(TwoGroups {
            alloc,
            log: String::new(alloc),
            first: listener(alloc, FAN_CLASS_CONTENT)?,
            second: listener(alloc, FAN_CLASS_PRE_CONTENT)?,
        })
    }

    // Lets a group answer by a word.
    pub(crate) fn answer_by(&mut self, word: &str, group: u32) {
        if group == 1 {
            answer_by(&mut self.first, word);
        } else {
            answer_by(&mut self.second, word);
        }
    }

    // Whether they made few entries so far.
    pub(crate) fn made_few(&self) -> bool
        ensures { IsTrue result
            → All (λ listener. listener.next_entry ≤ 2 ^ 31) (self.now.first ∷ self.now.second ∷ []) }
    {
        self.first.entries_made() < 1000 && self.second.entries_made() < 1000
    }

    // What they were asked and told.
    pub(crate) fn log(&self) -> &str {
        self.log.as_str()
    }
}

// Notes that a group is asked or told: its number and the events, then the object to which they
// happen with '+' for those of an entry and '/' for a directory, and the name.
fn note(
    log: &mut String,
    verb: &str,
    group: u32,
    happening: &Happening,
    name: &[u8],
    bits: u32,
) -> Result<(), NoMemory> {
    let comma = if log.is_empty() { "" } else { ", " };
    let inode = happening.place.inode;
    let entry = if happening.entry { "+" } else { "" };
    let dir = if happening.ondir { "/" } else { "" };
    let name = str::from_utf8(name).unwrap_or("?");
    write!(
        log,
        "{comma}{verb} {group} {bits:x}@{inode}{entry}{dir} {name}"
    )
    .map_err(|_| NoMemory)
}

// A listener with two entries at most.
fn listener(alloc: Global, class: u32) -> Result<Listener, NoMemory> {
    match init_words(class) {
        Ok(init) => Listener::new(alloc, init, 2),
        Err(_) => Err(NoMemory),
    }
}

// Puts a permission event on a queue.
fn ask(
    alloc: Global,
    listener: &mut Listener,
    happening: &Happening,
    name: &[u8],
    bits: u32,
    pid: u32,
    tid: u32,
) -> Result<Put, NoMemory>
    requires name { IsName name.now }
    requires entries { listener.old.next_entry ≤ 2 ^ 31 }
    ensures ok { IfOk result (λ outcome. (outcome, listener.new)
        ≡ put listener.old (event_for listener.old.flags happening.now name.now bits pid tid true)) }
    ensures err { OnErr result (listener.new ≡ listener.old) }
{
    let event = event_for(
        alloc,
        listener.init(),
        happening,
        name,
        bits,
        pid,
        tid,
        true,
    )?;
    listener.ask(event)
}

// Puts an event that needs no answer on a queue.
fn tell(
    alloc: Global,
    listener: &mut Listener,
    happening: &Happening,
    name: &[u8],
    bits: u32,
    pid: u32,
    tid: u32,
) -> Result<Put, NoMemory>
    requires name { IsName name.now }
    requires entries { listener.old.next_entry ≤ 2 ^ 31 }
    ensures ok { IfOk result (λ outcome. (outcome, listener.new)
        ≡ put listener.old (event_for listener.old.flags happening.now name.now bits pid tid false)) }
    ensures err { OnErr result (listener.new ≡ listener.old) }
{
    let event = event_for(
        alloc,
        listener.init(),
        happening,
        name,
        bits,
        pid,
        tid,
        false,
    )?;
    listener.tell(event)
}

// Lets a listener read what is queued and answer the last event, or closes it.
fn answer_by(listener: &mut Listener, word: &str) {
    if word == "close" {
        listener.close();
        return;
    }
    if listener.fds_given() > 1000 {
        return;
    }
    let _ = listener.read(4096);
    let last = u8::try_from(listener.fds_given().saturating_sub(1)).unwrap_or(0);
    let value = if word == "allow" { 1 } else { 2 };
    let _ = listener.write(&[last, 0, 0, 0, value, 0, 0, 0]);
}
