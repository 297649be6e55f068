// The next group that wants an event of a happening, found by asking the objects of its place in
// turn.
ghost use Rattle.std.specs.Prelude.{◌≡◌, List};
ghost use Rattle.fan_bits.specs.declared.mark.Mark.{Mark};
ghost use Rattle.fan_bits.specs.Interest.{next_interest};
ghost use Rattle.fan_bits.specs.Places.{IsPlace};
ghost use Rattle.fan_decide.specs.Answers.{answers, objects, earlier, first_of, next_marked};

use super::words::wanted_events;
use arrayvec::ArrayVec;
use fan_bits::{Connectors, Happening, Interest, Mark, Order, Place};

/// The first group after `after`, in the order of asks and tells, that wants an event of a
/// happening, and exactly the events that it wants; None if there is no such group. Allocates
/// nothing.
pub fn next_interest<C: Connectors>(
    connectors: &mut C,
    happening: &Happening,
    after: Order,
) -> Option<Interest>
    requires place { IsPlace happening.now.place }
    requires shown { (marks : List Mark) × C.shows connectors.old marks }
    ensures found { (marks : List Mark) → C.shows connectors.old marks
        → result ≡ next_interest marks happening.now after.0 }
    ensures same { (marks : List Mark) → C.shows connectors.old marks
        → C.shows connectors.new marks }
{
    let mut behind = after;
    loop {
        let interest = next_marked(connectors, happening, behind)?;
        if interest.bits != 0 {
            return Some(interest);
        }
        behind = interest.order();
    }
}

// The first group after `after` that has a mark on an object of the place, and what it wants, which
// may be nothing.
fn next_marked<C: Connectors>(
    connectors: &mut C,
    happening: &Happening,
    after: Order,
) -> Option<Interest>
    requires place { IsPlace happening.now.place }
    requires shown { (marks : List Mark) × C.shows connectors.old marks }
    ensures found { (marks : List Mark) → C.shows connectors.old marks
        → result ≡ next_marked marks happening.now after.0 }
    ensures same { (marks : List Mark) → C.shows connectors.old marks
        → C.shows connectors.new marks }
{
    let answers = next_marks(connectors, &happening.place, after);
    let first = first_of(&answers)?;
    Some(Interest {
        group: first.group,
        class: first.class,
        bits: wanted_events(&answers, first.group, happening),
    })
}

// The next mark after `after` on each object of a place: its inode, mount, filesystem and parent.
fn next_marks<C: Connectors>(
    connectors: &mut C,
    place: &Place,
    after: Order,
) -> ArrayVec<Option<Mark>, 4>
    requires place { IsPlace place.now }
    requires shown { (marks : List Mark) × C.shows connectors.old marks }
    ensures found { (marks : List Mark) → C.shows connectors.old marks
        → result.items ≡ answers marks (objects place.now) after.0 }
    ensures same { (marks : List Mark) → C.shows connectors.old marks
        → C.shows connectors.new marks }
{
    let mut found = ArrayVec::new();
    found.push(connectors.next(place.inode, after));
    found.push(connectors.next(place.mount, after));
    found.push(connectors.next(place.fs, after));
    if let Some(parent) = place.parent {
        found.push(connectors.next(parent, after));
    }
    found
}

// The first mark among the answers, by the order of its group.
fn first_of(answers: &[Option<Mark>]) -> Option<Mark>
    ensures { result ≡ first_of answers.now }
{
    answers.iter().copied().fold(None, earlier)
}

// The earlier one of two answers, by the order of its group.
fn earlier(answer: Option<Mark>, other: Option<Mark>) -> Option<Mark>
    ensures { result ≡ earlier answer other }
{
    match (answer, other) {
        (None, _) => other,
        (Some(_), None) => answer,
        (Some(mark), Some(second)) if second.order() < mark.order() => Some(second),
        (Some(mark), Some(_)) => Some(mark),
    }
}
