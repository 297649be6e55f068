// What a step of an access did, as plain data without memory: contracts see the list of outcomes.
ghost use Rattle.std.specs.Prelude.{◌≡◌, ◌∷◌, []};

use fan_bits::StepOutcome;
use std::marker::Model;

/// What single steps of an access did, in order. It lies in the value itself, so none of its
/// functions takes memory.
#[derive(Debug, Drop)]
pub struct Outcomes {
    outcomes: [StepOutcome; 1],
}

impl Model for Outcomes {
    ghost use Rattle.std.specs.Prelude.{List};
    ghost use Rattle.fan_bits.specs.declared.outcome.StepOutcome.{StepOutcome};

    ghost Value = { List StepOutcome };

    ghost view = { λ o. o.outcomes };
}

impl Outcomes {
    /// What one single step did.
    pub fn one(outcome: StepOutcome) -> Outcomes
        ensures { result ≡ outcome ∷ [] }
    {
        Outcomes {
            outcomes: [outcome],
        }
    }

    /// The outcomes in order.
    pub fn as_slice(&self) -> &[StepOutcome]
        ensures { result.now ≡ self.now }
    {
        &self.outcomes
    }
}
