// A change of marks: a call of fanotify_mark(2), a write to a file, or the end of a group or an
// object.
ghost use Rattle.std.specs.Prelude.{◌≡◌};
ghost use Rattle.fan_bits.specs.Marks.{updated, put_mark, or_blank, put_on, with_bits, without_bits, standing};

use super::class::Class;
use super::kind::{Kind, Verb};
use super::mark::{Mark, QUALIFIERS, without};
use super::mark_call::MarkWords;

/// One change of the marks of all groups.
#[derive(Clone, Copy, Debug, PartialEq, Eq)]
pub enum Change {
    /// FAN_MARK_ADD and FAN_MARK_REMOVE: bits are put on the mark of a group on an object, or taken
    /// from it.
    Put {
        /// The group, from 1.
        group: u32,
        /// The class of the group.
        class: Class,
        /// What the call asks for; its verb is never `Flush`.
        words: MarkWords,
        /// The object, from 1 to 65,535.
        object: u32,
    },
    /// FAN_MARK_FLUSH: all marks of a group on objects of a kind are removed.
    Flush {
        /// The group.
        group: u32,
        /// The kind of the objects.
        kind: Kind,
    },
    /// A file was written to: the ignored sets on it are emptied, unless they survive this.
    Clear {
        /// The file.
        object: u32,
    },
    /// A group was closed: its marks are removed.
    DropGroup {
        /// The group.
        group: u32,
    },
    /// An object is gone: the marks on it are removed.
    DropObject {
        /// The object.
        object: u32,
    },
}

/// The summary of a change that was made.
#[derive(Clone, Copy, Debug, PartialEq, Eq)]
pub struct Changed {
    /// Whether the list of marks differs from the one before.
    pub changed: bool,
    /// How many marks were removed, or replaced by different ones.
    pub retired: u32,
}

/// The mark of a group on an object after a `Put`; None if it has no event left. `old` is the mark
/// before, if there was one. Other changes leave `old` as it is.
#[tactic(auto, unfolding(crate::specs::Marks::updated))]
pub fn updated(old: Option<Mark>, change: &Change) -> Option<Mark>
    ensures { result ≡ updated old change.now }
{
    match *change {
        Change::Put {
            group,
            class,
            words,
            object,
        } => put_mark(old, group, class, words, object),
        Change::Flush { .. }
        | Change::Clear { .. }
        | Change::DropGroup { .. }
        | Change::DropObject { .. } => old,
    }
}

// The mark of a group on an object after bits were put on it or taken from it.
#[tactic(auto, unfolding(crate::specs::Marks::put_mark))]
fn put_mark(
    old: Option<Mark>,
    group: u32,
    class: Class,
    words: MarkWords,
    object: u32,
) -> Option<Mark>
    ensures { result ≡ put_mark old group class words object }
{
    let before = or_blank(old, group, class, words.kind, object);
    standing(put_on(words, before))
}

// The mark to which a Put is applied: the one that is there, or a new one without bits.
fn or_blank(old: Option<Mark>, group: u32, class: Class, kind: Kind, object: u32) -> Mark
    ensures { result ≡ or_blank old group class kind object }
{
    match old {
        Some(mark) => mark,
        None => Mark {
            group,
            class,
            object,
            kind,
            mask: 0,
            ignored: 0,
            survives: false,
        },
    }
}

// The mark with bits put on it or taken from it.
fn put_on(words: MarkWords, mark: Mark) -> Mark
    ensures { result ≡ put_on words.verb words mark }
{
    match words.verb {
        Verb::Add => with_bits(words, mark),
        Verb::Remove => without_bits(words, mark),
        Verb::Flush => mark,
    }
}

// Adds the bits to the mask, or the events among them to the ignored set, which may then be told to
// survive.
fn with_bits(words: MarkWords, mark: Mark) -> Mark
    ensures { result ≡ with_bits words mark }
{
    if words.ignored {
        Mark {
            ignored: mark.ignored | without(words.mask, QUALIFIERS),
            survives: mark.survives || words.survives,
            ..mark
        }
    } else {
        Mark {
            mask: mark.mask | words.mask,
            ..mark
        }
    }
}

// Removes the bits from the mask or from the ignored set.
fn without_bits(words: MarkWords, mark: Mark) -> Mark
    ensures { result ≡ without_bits words mark }
{
    if words.ignored {
        Mark {
            ignored: without(mark.ignored, words.mask),
            ..mark
        }
    } else {
        Mark {
            mask: without(mark.mask, words.mask),
            ..mark
        }
    }
}

// The mark, if it has an event.
fn standing(mark: Mark) -> Option<Mark>
    ensures { result ≡ standing mark }
{
    if mark.stands() { Some(mark) } else { None }
}
