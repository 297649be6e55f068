// What holds of one listener after any calls.
ghost use Rattle.std.specs.Prelude.{◌≡◌, ◌≤◌, ◌+◌, ◌==◌, ℕ, true, false, List, count_by, length};
ghost use Rattle.std.specs.List.{AllPairs};
ghost use Rattle.fan_bits.specs.Words.{occurs, unlimited_queue};
ghost use Rattle.fan_fates.specs.Calls.{Call, after_calls, answers, deeds};
ghost use Rattle.fan_fates.specs.Fates.{is_in, read};
ghost use Rattle.fan_fates.specs.Rules.{HaveOwnKeys};
ghost use Rattle.fan_fates.specs.Steps.{calls_in};
ghost use Rattle.fan_fates.specs.Turns.{IsMadeBy};
ghost use Rattle.fan_laws.specs.Whole.{numbers_in};
ghost use Rattle.fan_listener.specs.Groups.{listener_at};
ghost use Rattle.fan_listener.specs.ListenerState.{new_listener};
ghost use Rattle.fan_queue.specs.Queue.{is_lost};
ghost use Rattle.fan_listener.specs.Responses.{is_under};
ghost use Rattle.fan_machine.specs.Next.{after};
ghost use Rattle.fan_machine.specs.World.{initial_world};
ghost use Rattle.fan_script.specs.declared.step.Step.{Step};

/// After any steps each listener of the machine is what the calls of these steps make of a new one:
/// nothing else changes it.
pub fn listeners_change_by_calls()
    ensures { (steps : List Step) (group : ℕ) →
        IsMadeBy (calls_in group initial_world steps)
        (listener_at (after initial_world steps).groups group) }
{}

/// After any calls of a new listener at most one lost entry is queued (`one_overflow`), and
/// beside it no more entries than the limit, unless the queue is unlimited (`limited`). No two
/// queued events could be merged (`keys_differ`). No two events wait under one descriptor
/// (`descriptors_differ`). No entry is answered twice (`answered_once`), nor one that was not read
/// (`answered_read`).
pub fn listeners_keep_their_limits()
    ensures one_overflow { (flags limit : ℕ) (calls : List Call) →
        count_by is_lost (after_calls (new_listener flags limit) calls).queue ≤ 1 }
    ensures limited { (flags limit : ℕ) (calls : List Call) →
        let listener = after_calls (new_listener flags limit) calls in
        occurs flags unlimited_queue ≡ false →
        length listener.queue ≤ limit + count_by is_lost listener.queue }
    ensures keys_differ { (flags limit : ℕ) (calls : List Call) →
        AllPairs HaveOwnKeys (after_calls (new_listener flags limit) calls).queue }
    ensures descriptors_differ { (flags limit : ℕ) (calls : List Call) (fd : ℕ) →
        count_by (is_under fd) (after_calls (new_listener flags limit) calls).pending ≤ 1 }
    ensures answered_once { (flags limit : ℕ) (calls : List Call) (entry : ℕ) →
        count_by (λ other. other == entry) (answers (new_listener flags limit) calls) ≤ 1 }
    ensures answered_read { (flags limit : ℕ) (calls : List Call) (entry : ℕ) →
        let listener = new_listener flags limit in
        is_in (answers listener calls) entry ≡ true →
        is_in (numbers_in (read (deeds listener calls))) entry ≡ true }
{}
