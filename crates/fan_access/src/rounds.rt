// What an access asks about and what it tells of, one round after the other.
ghost use Rattle.std.specs.Prelude.{◌≡◌, ◌<◌, ◌^◌, List, IfSome, option_map, slice_get};
ghost use Rattle.fan_access.specs.Operations.{is_dir_entry, is_third_dir};
ghost use Rattle.fan_access.specs.Rounds.{Round, asked_rounds, happening_at, told_rounds};

use crate::op::Op;
use crate::report::Report;
use crate::spot::Spot;
use fan_bits::{Happening, Place};

/// The rounds of an access. No list of them is made.
pub(crate) trait Rounds {
    /// The rounds.
    ghost rounds: { Self → List Round };

    /// What happens in the round with a number, if there is one.
    fn happening(&self, number: usize) -> Option<Happening>
        ensures found { result ≡ option_map (λ round. round.happening)
            (slice_get (rounds self.now) number) }
        ensures within { IfSome result (λ happening. number < 2 ^ 63) };
}

/// What an operation asks about, all of it at the first spot.
#[derive(Clone, Copy, Debug)]
pub(crate) struct AskedRounds<'a> {
    /// The operation.
    pub op: Op,
    /// Its spots.
    pub spots: &'a [Spot],
}

impl<'a> Rounds for AskedRounds<'a> {
    ghost rounds = { λ it. asked_rounds it.op it.spots.now };

    fn happening(&self, number: usize) -> Option<Happening> {
        let spot = self.spots.first()?;
        let bits = self.op.asked_events().get(number)?;
        Some(happening_at(false, spot.place, Report::Itself(*bits)))
    }
}

/// What an operation tells of, each at a spot of its own.
#[derive(Clone, Copy, Debug)]
pub(crate) struct ToldRounds<'a> {
    /// The operation.
    pub op: Op,
    /// Its spots.
    pub spots: &'a [Spot],
}

impl<'a> Rounds for ToldRounds<'a> {
    ghost rounds = { λ it. told_rounds it.op it.spots.now };

    fn happening(&self, number: usize) -> Option<Happening> {
        let spot = self.spots.get(number)?;
        let report = self.op.told_events().get(number)?;
        let is_dir = is_dir_entry(self.op, self.spots);
        Some(happening_at(is_dir, spot.place, *report))
    }
}

// What happens at a place, by what is told of it; an entry is a directory or not.
fn happening_at(is_dir: bool, place: Place, report: Report) -> Happening
    ensures { result ≡ happening_at is_dir place report }
{
    match report {
        Report::Itself(bits) => Happening {
            place,
            bits,
            ondir: place.dir,
            entry: false,
        },
        Report::OfEntry(bits) => Happening {
            place,
            bits,
            ondir: is_dir,
            entry: true,
        },
    }
}

// Whether the entry that an operation makes, removes or renames is a directory.
fn is_dir_entry(op: Op, spots: &[Spot]) -> bool
    ensures { result ≡ is_dir_entry op spots.now }
{
    match op {
        Op::MakesDir | Op::RemovesDir => true,
        Op::Renames => is_third_dir(spots),
        _ => false,
    }
}

// Whether the object of a rename, which has the third spot, is a directory.
fn is_third_dir(spots: &[Spot]) -> bool
    ensures { result ≡ is_third_dir spots.now }
{
    match spots {
        [_, _, object, ..] => object.place.dir,
        _ => false,
    }
}
