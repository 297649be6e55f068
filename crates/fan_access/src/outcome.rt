// What asks, answers and tells make of an access.
ghost use Rattle.std.specs.Prelude.{◌≡◌, ◌≢◌, ℕ, ◌+◌};
ghost use Rattle.fan_access.specs.Access.{AccessState, after_answer, after_ask, answered_outcome, asked_outcome, told_outcome};
ghost use Rattle.fan_access.specs.Kept.{AsksLeft, IsPhase};

use crate::phase::{Cursor, Phase};
use fan_bits::StepOutcome;
use fan_listener::{Answer, Put};

/// The outcome of an ask, by what became of its event, which is never merged.
pub(crate) fn asked_outcome(group: u32, put: Put) -> StepOutcome
    requires { (entry : ℕ) → put ≢ Put.Merged entry }
    ensures { result ≡ asked_outcome group put }
{
    match put {
        Put::Queued { .. } => StepOutcome::Asked(group),
        Put::Merged { .. } => unreachable!(),
        Put::Overflow { .. } => StepOutcome::Full(group),
        Put::Closed => StepOutcome::Closed(group),
    }
}

/// Where an access stands after an ask: it waits for the group if its event is queued.
pub(crate) fn phase_after_ask(behind: Cursor, group: u32, put: Put) -> Phase
    ensures { (access : AccessState) (at : ℕ) → AsksLeft access (at + 1) behind
        → IsPhase (record access { phase = after_ask at group put }) result }
{
    match put {
        Put::Queued { entry } => Phase::Waiting {
            cursor: behind,
            group,
            entry,
        },
        _ => Phase::Asking { cursor: behind },
    }
}

/// The outcome of a look for an answer.
pub(crate) fn answered_outcome(group: u32, answer: Answer) -> StepOutcome
    ensures { result ≡ answered_outcome group answer }
{
    match answer {
        Answer::Waiting => StepOutcome::Blocked(group),
        Answer::Allowed => StepOutcome::Allowed(group),
        Answer::Denied => StepOutcome::Denied(group),
        Answer::Closed => StepOutcome::Closed(group),
    }
}

/// Where an access stands after a look for an answer: it waits on if there is none.
pub(crate) fn phase_after_answer(behind: Cursor, group: u32, entry: u64, answer: Answer) -> Phase
    ensures { (access : AccessState) (at : ℕ) → AsksLeft access (at + 1) behind
        → IsPhase (record access { phase = after_answer at group entry answer }) result }
{
    match answer {
        Answer::Waiting => Phase::Waiting {
            cursor: behind,
            group,
            entry,
        },
        _ => Phase::Asking { cursor: behind },
    }
}

/// The outcome of a tell, by what became of its event.
pub(crate) fn told_outcome(group: u32, put: Put) -> StepOutcome
    ensures { result ≡ told_outcome group put }
{
    match put {
        Put::Queued { .. } => StepOutcome::Queued(group),
        Put::Merged { .. } => StepOutcome::Merged(group),
        Put::Overflow { .. } => StepOutcome::Overflow(group),
        Put::Closed => StepOutcome::Closed(group),
    }
}
