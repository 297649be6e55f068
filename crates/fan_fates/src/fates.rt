// What becomes of each ask and each tell.
ghost use Rattle.std.specs.Prelude.{◌≡◌, ◌≤◌, ℕ, Bool, true, List, [], ◌∷◌, All, Some, length};
ghost use Rattle.std.specs.List.{range_with_len};
ghost use Rattle.fan_access.specs.Access.{AccessState};
ghost use Rattle.fan_access.specs.Rounds.{Turn};
ghost use Rattle.fan_fates.specs.Calls.{Came};
ghost use Rattle.fan_fates.specs.Fates.{made};
ghost use Rattle.fan_fates.specs.Rules.{FindsClosed, IsAloneIn, IsQueued, NamesNext, is_lost_fate};
ghost use Rattle.fan_fates.specs.Steps.{deeds_by, deeds_in, queue_in};
ghost use Rattle.fan_fates.specs.Turns.{HasFate, IsDue, IsFull};
ghost use Rattle.fan_laws.specs.Causes.{HasNext};
ghost use Rattle.fan_event.specs.declared.event.Event.{Event};
ghost use Rattle.fan_queue.specs.declared.entry.Put.{Put};
ghost use Rattle.fan_machine.specs.Accesses.{access_of};
ghost use Rattle.fan_machine.specs.Next.{after, next};
ghost use Rattle.fan_machine.specs.World.{WorldState, initial_world};
ghost use Rattle.fan_script.specs.declared.step.Step.{Step};

/// The single step that takes a turn of an access puts its event on the queue of its group, and of
/// no other, and answers by what becomes of it (`one_fate`); no other step puts any (`none_else`),
/// and none does two things in a group (`one_deed`). Right after, the event is in the queue as the
/// entry that its fate names, merged into it, or covered by it (`named`). The entries made in a
/// group have the numbers 1, 2, 3 (`numbered`); a fate names a new one, or one of its own sort that
/// was made before (`fresh_or_known`). The entry of a permission event is named by that event alone
/// (`permission`). An event finds its group closed exactly if that was closed before (`closed`),
/// and is lost only at the limit of the queue (`full`).
pub fn every_event_has_one_fate()
    ensures one_fate { (before : List Step) (number : ℕ) (access : AccessState) (perm : Bool)
        (turn : Turn) →
        let world = after initial_world before in
        access_of world number ≡ Some access → HasNext perm access turn →
        HasFate world number access perm turn }
    ensures none_else { (world : WorldState) (step : Step) (group : ℕ) (event : Event)
        (fate : Put) → deeds_by world step group ≡ Came event fate ∷ [] →
        IsDue world step group event }
    ensures one_deed { (world : WorldState) (step : Step) (group : ℕ) →
        length (deeds_by world step group) ≤ 1 }
    ensures named { (world : WorldState) (step : Step) (group : ℕ) (event : Event) (fate : Put) →
        deeds_by world step group ≡ Came event fate ∷ [] →
        IsQueued (queue_in (next world step).world group) event fate }
    ensures numbered { (steps : List Step) (group : ℕ) →
        let numbers = made (deeds_in group initial_world steps) in
        numbers ≡ range_with_len 1 (length numbers) }
    ensures fresh_or_known { (before : List Step) (step : Step) (group : ℕ) (event : Event)
        (fate : Put) →
        deeds_by (after initial_world before) step group ≡ Came event fate ∷ [] →
        NamesNext (deeds_in group initial_world before) fate }
    ensures permission { (steps : List Step) (group : ℕ) →
        let deeds = deeds_in group initial_world steps in All (IsAloneIn deeds) deeds }
    ensures closed { (before : List Step) (step : Step) (group : ℕ) (event : Event)
        (fate : Put) → deeds_by (after initial_world before) step group ≡ Came event fate ∷ [] →
        FindsClosed (deeds_in group initial_world before) fate }
    ensures full { (before : List Step) (step : Step) (group : ℕ) (event : Event) (fate : Put) →
        let world = after initial_world before in
        deeds_by world step group ≡ Came event fate ∷ [] → is_lost_fate fate ≡ true →
        IsFull world group }
{}
