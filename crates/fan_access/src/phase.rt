// Where an access stands, as it is kept: by its round and by the group that it came to last.
use fan_bits::Order;

/// A place among the turns of groups. A round is one happening that groups are asked about or told
/// of.
#[derive(Clone, Copy, Debug, PartialEq, Eq)]
pub struct Cursor {
    /// The round, counted from 0.
    pub round: usize,
    /// The groups behind this order still have their turn in the round.
    pub after: Order,
}

/// Where an access stands.
#[derive(Clone, Copy, Debug, PartialEq, Eq)]
pub enum Phase {
    /// It asks groups.
    Asking {
        /// The turns that are left.
        cursor: Cursor,
    },
    /// It waits for a group to answer an entry.
    Waiting {
        /// The turns that are left behind the group's.
        cursor: Cursor,
        /// The group.
        group: u32,
        /// The number of the entry in the group's queue.
        entry: u64,
    },
    /// It tells groups.
    Telling {
        /// The turns that are left.
        cursor: Cursor,
    },
}

impl Cursor {
    /// Before all turns.
    pub const START: Cursor = Cursor {
        round: 0,
        after: Order::START,
    };
}
