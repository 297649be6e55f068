// Laws of accesses.
ghost use Rattle.std.specs.Prelude.{◌≡◌, ◌≤◌, ◌↔◌, ℕ, Bool, List, [], ◌∷◌, Option, Some, None, Ok, is_none, length, IfSome};
ghost use Rattle.fan_access.specs.Access.{AccessState, Waiting, event_of};
ghost use Rattle.fan_access.specs.Operations.{told_events};
ghost use Rattle.fan_access.specs.Rounds.{Turn};
ghost use Rattle.fan_bits.specs.declared.outcome.StepOutcome.{StepOutcome};
ghost use Rattle.fan_laws.specs.Causes.{HasNext, HasNoneLeft, IsDueTo};
ghost use Rattle.fan_laws.specs.InOrder.{Begin, GoesInOrder, IsStill, begun_access, begun_world, outcomes_of};
ghost use Rattle.fan_listener.specs.Groups.{answer_from, put_to};
ghost use Rattle.fan_machine.specs.Accesses.{access_of, op_of};
ghost use Rattle.fan_machine.specs.Deeds.{Deed, deed_of};
ghost use Rattle.fan_machine.specs.Next.{after, next};
ghost use Rattle.fan_machine.specs.World.{WorldState, changed_if, initial_world};
ghost use Rattle.fan_script.specs.declared.step.OpWord.{OpWord};
ghost use Rattle.fan_script.specs.declared.step.Step.{Step};

use fan_bits::Errno;
use fan_script::{Reply, Step};

/// A begin that is done does what its operation does by its paths (`does`). The access that begins
/// is open then, at the spots of that. It goes by the marks as they stand once a write has emptied
/// the ignored sets on its file that don't survive it, and before the marks on what is removed go
/// (`begins`). It has a spot for each event that it tells (`spots`). The begin leaves the marks
/// after both of these changes (`marks`), the changed tree (`tree`), and the mounts, the groups and
/// the limit as they were (`others`). The access asks groups and then tells groups, whatever comes
/// after it. The outcomes come in that order, up to the first denial, and to the last group if the
/// access is finished (`order`). As long as it is open, only its phase changes (`same`).
pub fn accesses_ask_then_tell()
    ensures does { (world : WorldState) (number pid tid : ℕ) (word : OpWord) (path : List ℕ)
        (second : Option (List ℕ)) →
        (next world (Step.Begin number pid tid word path second)).reply ≡ Reply.Done →
        (deed : Deed) × (deed_of world (op_of word) path second ≡ Ok deed) }
    ensures begins { (world : WorldState) (number : ℕ) (begin : Begin world number) →
        access_of (begun_world world number begin) number
        ≡ Some (begun_access world number begin) }
    ensures spots { (world : WorldState) (number : ℕ) (begin : Begin world number) →
        length begin.deed.spots ≡ length (told_events (op_of begin.word)) }
    ensures order { (before later : List Step) (number : ℕ) →
        let world = after initial_world before in
        (begin : Begin world number) →
        let begun = begun_world world number begin in
        GoesInOrder (begun_access world number begin) (outcomes_of number begun later)
        (is_none (access_of (after begun later) number)) }
    ensures marks { (world : WorldState) (number : ℕ) (begin : Begin world number) →
        (begun_world world number begin).marks
        ≡ changed_if begin.deed.last (changed_if begin.deed.first world.marks) }
    ensures tree { (world : WorldState) (number : ℕ) (begin : Begin world number) →
        (begun_world world number begin).tree ≡ begin.deed.tree }
    ensures others { (world : WorldState) (number : ℕ) (begin : Begin world number) →
        let new = begun_world world number begin in
        (new.mounts ≡ world.mounts) × (new.groups ≡ world.groups) × (new.limit ≡ world.limit) }
    ensures same { (before later : List Step) (number : ℕ) →
        let world = after initial_world before in
        (begin : Begin world number) →
        IfSome (access_of (after (begun_world world number begin) later) number)
        (IsStill (begun_access world number begin)) }
{}

/// A number up to the greatest that an access had, and that is not open, is never open again.
pub fn finished_accesses_stay_so()
    ensures { (world : WorldState) (later : List Step) (number : ℕ) →
        number ≤ world.last_access → access_of world number ≡ None →
        (next (after world later) (Step.Advance number)).reply ≡ Reply.Refused Errno.Esrch }
{}

/// Each outcome of a single step of an open access comes exactly if its cause holds (`cause`). The
/// step puts just the event of the turn that comes next on the queue of its group (`event`), takes
/// the answer that it waits for (`answer`), or leaves all listeners as they are (`end`).
pub fn outcomes_have_causes()
    ensures cause { (world : WorldState) (number : ℕ) (access : AccessState)
        (outcome : StepOutcome) → access_of world number ≡ Some access →
        ((next world (Step.Advance number)).reply ≡ Reply.Out (outcome ∷ []))
        ↔ IsDueTo world.groups access outcome }
    ensures event { (world : WorldState) (number : ℕ) (access : AccessState) (perm : Bool)
        (turn : Turn) → access_of world number ≡ Some access → HasNext perm access turn →
        (next world (Step.Advance number)).world.groups
        ≡ (put_to world.groups turn.interest.group (event_of perm turn access)).1 }
    ensures answer { (world : WorldState) (number at group entry : ℕ) (access : AccessState) →
        access_of world number ≡ Some access → access.phase ≡ Waiting at group entry →
        (next world (Step.Advance number)).world.groups
        ≡ (answer_from world.groups group entry).1 }
    ensures end { (world : WorldState) (number : ℕ) (access : AccessState) →
        access_of world number ≡ Some access → HasNoneLeft access →
        (next world (Step.Advance number)).world.groups ≡ world.groups }
{}
