// Where the last walks stood, object by object, from which the next ones go on.
ghost use Rattle.std.specs.Prelude.{◌≡◌, ◌%◌, ◌==◌, ◌&&◌, ℕ, Option, All, IfSome, nat_lt, not, slice_set};
ghost use Rattle.fan_grace.specs.Hints.{IsHint, IsStart};

use fan_bits::Order;

/// How many hints there are.
const PLACES: usize = 16;

/// Where a walk of the marks on an object stood. In the chain of the object below the root, all
/// marks before the row have an order of at most `low`.
#[derive(Clone, Copy)]
pub(crate) struct Hint {
    /// The root from which the walk began.
    pub(crate) root: u64,
    /// The object.
    pub(crate) object: u32,
    /// The order behind which it searched.
    pub(crate) low: Order,
    /// The row at which it ended; 0 is the end of the chain.
    pub(crate) row: u64,
}

impl Hint {
    // Whether a walk on an object behind an order can begin at the row.
    fn fits(&self, root: u64, object: u32, after: Order) -> bool
        ensures { result ≡ (self.now.root == root && self.now.object == object
            && not (nat_lt after.0 self.now.low.0)) }
    {
        self.root == root && self.object == object && self.low <= after
    }
}

/// The hint of no walk: from root 0 nothing is reached.
const NO_WALK: Hint = Hint {
    root: 0,
    object: 0,
    low: Order::START,
    row: 0,
};

/// A hint for each object, where objects whose numbers are the same modulo the number of places
/// share one.
#[derive(Clone, Copy)]
pub(crate) struct Hints {
    hints: [Hint; PLACES],
}

impl Hints {
    /// No walk was made yet.
    pub(crate) fn new() -> Hints
        ensures { (words : ℕ → Option ℕ) → All (IsHint words) result.hints }
    {
        Hints {
            hints: [NO_WALK; PLACES],
        }
    }

    /// The row from which a walk can go on, if the last one with this object's hint had the same
    /// root and object and began no further.
    pub(crate) fn start(&self, root: u64, object: u32, after: Order) -> Option<u64>
        ensures { (words : ℕ → Option ℕ) → All (IsHint words) self.now.hints
            → IfSome result (λ row. IsStart words root object after.0 row) }
    {
        let hint = self.hints[place(object)];
        hint.fits(root, object, after).then_some(hint.row)
    }

    /// Keeps where a walk stood.
    pub(crate) fn keep(&mut self, hint: Hint)
        ensures { self.new.hints ≡ slice_set self.old.hints (hint.object % 16) hint }
    {
        self.hints[place(hint.object)] = hint;
    }
}

// The place of the hint for an object.
fn place(object: u32) -> usize
    ensures { result ≡ object % 16 }
{
    object as usize % PLACES
}
