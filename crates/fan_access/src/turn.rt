// The next group that has its turn, by the marks as they stand.
ghost use Rattle.std.specs.Prelude.{◌≡◌, List, Some, [], ◌∷◌, All, IfSome, MatchOption, option_map, slice_get};
ghost use Rattle.fan_access.specs.Kept.{turns_left};
ghost use Rattle.fan_access.specs.Rounds.{Round};
ghost use Rattle.fan_bits.specs.declared.mark.Mark.{Mark};
ghost use Rattle.fan_bits.specs.Places.{IsPlace};

use crate::phase::Cursor;
use crate::rounds::Rounds;
use fan_bits::{Connectors, Happening, Interest, Order};
use fan_decide::next_interest;

/// The next turn: that of one group in a round.
#[derive(Clone, Copy, Debug)]
pub(crate) struct NextTurn {
    /// What happens in the round.
    pub happening: Happening,
    /// The group, and the events that it wants.
    pub interest: Interest,
    /// The turns that are left behind it: it has the round of the turn.
    pub behind: Cursor,
}

/// The next turn of some rounds from a cursor on, if one is left.
pub(crate) fn next_turn<C: Connectors, R: Rounds>(
    connectors: &mut C,
    rounds: &R,
    mut cursor: Cursor,
) -> Option<NextTurn>
    requires places { All (λ round. IsPlace round.happening.place) (R.rounds rounds.now) }
    requires shown { (marks : List Mark) × C.shows connectors.old marks }
    ensures found { (marks : List Mark) → C.shows connectors.old marks
        → MatchOption result (turns_left marks (R.rounds rounds.now) cursor ≡ [])
        (λ next. (round : Round) → slice_get (R.rounds rounds.now) next.behind.round ≡ Some round
        → turns_left marks (R.rounds rounds.now) cursor
        ≡ record { happening = next.happening; name = round.name; interest = next.interest }
        ∷ turns_left marks (R.rounds rounds.now) next.behind) }
    ensures round { IfSome result (λ next. option_map (λ round. round.happening)
        (slice_get (R.rounds rounds.now) next.behind.round) ≡ Some next.happening) }
    ensures same { (marks : List Mark) → C.shows connectors.old marks
        → C.shows connectors.new marks }
{
    while let Some(happening) = rounds.happening(cursor.round) {
        if let Some(interest) = next_interest(connectors, &happening, cursor.after) {
            let behind = Cursor {
                after: interest.order(),
                ..cursor
            };
            return Some(NextTurn {
                happening,
                interest,
                behind,
            });
        }
        cursor = Cursor {
            round: cursor.round + 1,
            after: Order::START,
        };
    }
    None
}
