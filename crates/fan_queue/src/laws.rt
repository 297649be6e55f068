// Laws of queues, each the contract of a function that does nothing.
ghost use Rattle.std.specs.Prelude.{◌≡◌, ◌≢◌, ℕ, true, IfSome};
ghost use Rattle.fan_event.specs.declared.event.Event.{Event};
ghost use Rattle.fan_queue.specs.declared.entry.Put.TheVariants.{Merged};
ghost use Rattle.fan_queue.specs.Queue.{put, taken};
ghost use Rattle.fan_queue.specs.Queued.{IsQueue};
ghost use Rattle.fan_queue.specs.QueueState.{QueueState};

/// A queue to which an event is put, or from which an entry is taken, stays one: its entries have
/// consecutive numbers below the next, no two of them have the same key unless one is a permission event,
/// and one at most is the lost entry.
pub fn a_queue_stays_a_queue()
    ensures put { (state : QueueState) (event : Event) → IsQueue state
        → IsQueue (put state event).1 }
    ensures taken { (state : QueueState) → IsQueue state
        → IfSome (taken state) (λ took. IsQueue took.1) }
{}

/// A permission event is never merged.
pub fn permission_events_are_never_merged()
    ensures { (state : QueueState) (event : Event) → event.perm ≡ true
        → (entry : ℕ) → (put state event).0 ≢ Merged entry }
{}
