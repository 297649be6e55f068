// The events of a happening that marks concern and ignore, as words.
ghost use Rattle.std.specs.Prelude.{◌≡◌, ℕ, ◌^◌, ◌&&◌, ◌||◌, not};
ghost use Rattle.std.specs.List.{list_any};
ghost use Rattle.fan_bits.specs.Interest.{is_on_place, reaches, concerns, ignores, watches_children};
ghost use Rattle.fan_bits.specs.MarkWords.{ondir};
ghost use Rattle.fan_bits.specs.Places.{is_parent};
ghost use Rattle.fan_bits.specs.Words.{occurs};
ghost use Rattle.fan_decide.specs.Words.{HasJust, answer_concerns, answer_ignores, wanted_by};

use fan_bits::{CHILD_EVENTS, FAN_EVENT_ON_CHILD, FAN_ONDIR, Happening, Mark, Place};

/// The events of a happening that a group wants, by the marks in the answers.
#[tactic(auto, using(crate::proofs::WordLemmas::wanted_steps))]
pub(crate) fn wanted_events(answers: &[Option<Mark>], group: u32, happening: &Happening) -> u32
    ensures { result ≡ wanted_by answers.now group happening.now }
{
    let mut concerned = 0;
    let mut ignored = 0;
    for answer in answers {
        let words = words_by(answer, group, happening);
        concerned |= words.concerned;
        ignored |= words.ignored;
    }
    happening.bits & concerned & !ignored
}

// Some events that are asked for, and some that are ignored.
#[derive(Clone, Copy, Debug)]
struct Words {
    concerned: u32,
    ignored: u32,
}

// The events that the mark of an answer asks for and ignores; none if it is another group's.
#[tactic(auto, using(crate::proofs::WordLemmas::mark_events))]
fn words_by(answer: &Option<Mark>, group: u32, happening: &Happening) -> Words
    ensures concerned { HasJust result.concerned
        (λ event. answer_concerns group happening.now event answer.now) }
    ensures ignored { HasJust result.ignored
        (λ event. answer_ignores group happening.now event answer.now) }
{
    match answer {
        Some(mark) if mark.group == group => words_of(mark, happening),
        _ => Words {
            concerned: 0,
            ignored: 0,
        },
    }
}

// The events of a happening that a mark asks for and ignores.
#[tactic(auto, using(crate::proofs::WordLemmas::mark_events))]
fn words_of(mark: &Mark, happening: &Happening) -> Words
    ensures concerned { HasJust result.concerned (concerns mark.now happening.now) }
    ensures ignored { HasJust result.ignored (ignores mark.now happening.now) }
{
    let reached = reached(mark, &happening.place);
    Words {
        concerned: asked(mark, happening.ondir) & reached,
        ignored: mark.ignored & reached,
    }
}

// The events that a mark asks for. On a directory it needs FAN_ONDIR.
#[tactic(auto, using(crate::proofs::WordLemmas::mark_events))]
fn asked(mark: &Mark, on_directory: bool) -> u32
    ensures { HasJust result (λ event. occurs mark.now.mask event
        && (not on_directory || occurs mark.now.mask ondir)) }
{
    if on_directory && !has(mark.mask, FAN_ONDIR) {
        return 0;
    }
    mark.mask
}

// The events for which a mark reaches a place.
#[tactic(auto, using(crate::proofs::WordLemmas::mark_events))]
fn reached(mark: &Mark, place: &Place) -> u32
    ensures { HasJust result (reaches mark.now place.now) }
{
    if is_on_place(mark, place) {
        return u32::MAX;
    }
    if is_on_parent(mark, place) && watches_children(mark) {
        return CHILD_EVENTS;
    }
    0
}

// Whether a mark is on the place itself: on its inode, its mount or its filesystem.
fn is_on_place(mark: &Mark, place: &Place) -> bool
    ensures { result ≡ is_on_place mark.now place.now }
{
    mark.object == place.inode || mark.object == place.mount || mark.object == place.fs
}

// Whether a mark is on the parent of a place.
fn is_on_parent(mark: &Mark, place: &Place) -> bool
    ensures { result ≡ is_parent mark.now.object place.now.parent }
{
    place.parent == Some(mark.object)
}

// Whether a mark asks for events on the entries of its directory.
fn watches_children(mark: &Mark) -> bool
    ensures { result ≡ watches_children mark.now }
{
    has(mark.mask, FAN_EVENT_ON_CHILD)
}

// Whether a word has a flag.
#[tactic(auto, using(fan_bits::proofs::Masks::mask_occurs))]
fn has(word: u32, flag: u32) -> bool
    ensures { (number : ℕ) → flag ≡ 2 ^ number → result ≡ occurs word number }
{
    word & flag == flag
}
