// The entries of a queue, and what becomes of an event that is put on it.
ghost use Rattle.std.specs.Prelude.{◌≡◌};
ghost use Rattle.fan_queue.specs.Queue.{is_lost, merged, takes};

use fan_event::{Event, Notice};

/// What became of an event that was put on a queue.
#[derive(Clone, Copy, Debug, PartialEq, Eq)]
pub enum Put {
    /// It was queued.
    Queued {
        /// The number of its entry.
        entry: u64,
    },
    /// A queued event took its bits.
    Merged {
        /// The number of that event's entry.
        entry: u64,
    },
    /// The queue was at its limit, and the lost entry stands for the event.
    Overflow {
        /// The number of the lost entry.
        entry: u64,
    },
    /// The group is closed, and the event was dropped. A queue never gives this; its listener does.
    Closed,
}

/// What is queued.
#[derive(Debug, PartialEq, Eq, Drop)]
pub enum Body {
    /// An event.
    Told(Event),
    /// FAN_Q_OVERFLOW: events were lost at the limit.
    Lost,
}

/// An entry of a queue.
#[derive(Debug, PartialEq, Eq, Drop)]
pub struct Entry {
    /// Its number in the group, from 1.
    pub number: u64,
    /// What is queued.
    pub body: Body,
}

impl Entry {
    // Whether it takes the bits of an event.
    #[tactic(auto, unfolding(crate::specs::Queue::takes))]
    pub(crate) fn takes(&self, event: &Notice<'_>) -> bool
        ensures { result ≡ takes event.now self.now }
    {
        match &self.body {
            Body::Told(old) => !event.is_permission() && !old.perm && event.has_key_of(old),
            Body::Lost => false,
        }
    }

    // Whether it is the lost entry.
    pub(crate) fn is_lost(&self) -> bool
        ensures { result ≡ is_lost self.now }
    {
        matches!(self.body, Body::Lost)
    }

    // Takes the bits of an event.
    #[tactic(auto, unfolding(crate::specs::Queue::merged))]
    pub(crate) fn merge(&mut self, event: &Notice<'_>)
        ensures { self.new ≡ merged event.now self.old }
    {
        if let Body::Told(old) = &mut self.body {
            old.take_bits(event.bits());
        }
    }
}
