// What a change makes of one mark, and down which index rows it goes.
ghost use Rattle.std.specs.Prelude.{◌≡◌, ◌≤◌, Some, None, if◌then◌else◌};
ghost use Rattle.fan_build.specs.Edits.{cleared_mark, edit_of, edit_on, goes, is_at, is_past, kept, scope_at, stays};

use fan_bits::{Change, Mark, Order, updated};

// The greatest number of an object.
const LAST_OBJECT: u32 = 65_535;

/// The objects on which a change is made.
#[derive(Clone, Copy)]
pub(crate) enum Scope {
    /// All that have a mark.
    Everywhere,
    /// One, of a number that an object can have.
    Object(u32),
    /// None.
    Nowhere,
}

impl Scope {
    // One object, if it can have the number.
    fn at(object: u32) -> Scope
        ensures { result ≡ scope_at object }
    {
        if object > LAST_OBJECT {
            Scope::Nowhere
        } else {
            Scope::Object(object)
        }
    }
}

/// A change, and the objects on which it is made.
#[derive(Clone, Copy)]
pub(crate) struct Edit {
    pub(crate) change: Change,
    pub(crate) scope: Scope,
}

impl Edit {
    /// A change where it alters marks.
    pub(crate) fn of(change: &Change) -> Edit
        ensures { result ≡ edit_of change.now }
    {
        let scope = match *change {
            Change::Put { object, .. } | Change::Clear { object } | Change::DropObject { object } =>
                Scope::at(object),
            Change::Flush { .. } | Change::DropGroup { .. } => Scope::Everywhere,
        };
        Edit {
            change: *change,
            scope,
        }
    }

    /// The part of a change on one object.
    pub(crate) fn on(change: &Change, object: u32) -> Edit
        ensures { result ≡ edit_on change.now object }
    {
        let scope = match *change {
            Change::Put { object: own, .. } if own != object => Scope::Nowhere,
            _ => Scope::at(object),
        };
        Edit {
            change: *change,
            scope,
        }
    }

    /// Whether it goes down to a row that stands for a digit, with so many index rows below.
    pub(crate) fn goes(&self, row: u64, depth: u32, digit: u32) -> bool
        requires { depth ≤ 8 }
        ensures { result ≡ goes self.now.scope row depth digit }
    {
        match self.scope {
            Scope::Everywhere => row != 0,
            Scope::Object(object) => object / 4u32.pow(depth) % 4 == digit,
            Scope::Nowhere => false,
        }
    }
}

/// What a change leaves of a mark to which it comes.
#[inline(always)]
pub(crate) fn kept(change: &Change, mark: Mark) -> Option<Mark>
    ensures { result ≡ kept change.now mark }
{
    match *change {
        Change::Put { .. } => {
            if is_at(change, &mark) {
                updated(Some(mark), change)
            } else {
                Some(mark)
            }
        }
        Change::Flush { group, kind } => unless(mark.group == group && mark.kind == kind, mark),
        Change::Clear { object } => cleared(object, mark),
        Change::DropGroup { group } => unless(mark.group == group, mark),
        Change::DropObject { object } => unless(mark.object == object, mark),
    }
}

// The mark, unless it is removed.
#[inline(always)]
fn unless(removed: bool, mark: Mark) -> Option<Mark>
    ensures { result ≡ (if removed then None else Some mark) }
{
    if removed { None } else { Some(mark) }
}

// What a write to a file leaves of a mark.
#[tactic(auto, unfolding(crate::specs::Edits::cleared_mark))]
fn cleared(object: u32, mark: Mark) -> Option<Mark>
    ensures { result ≡ cleared_mark object mark }
{
    if mark.object != object || mark.survives {
        return Some(mark);
    }
    let emptied = Mark { ignored: 0, ..mark };
    if emptied.stands() {
        Some(emptied)
    } else {
        None
    }
}

/// Whether a mark comes behind the place where bits are put.
#[inline(always)]
pub(crate) fn is_past(change: &Change, mark: &Mark) -> bool
    ensures { result ≡ is_past change.now mark.now }
{
    match *change {
        Change::Put { group, class, .. } => mark.order().0 > Order::of(class, group).0,
        _ => false,
    }
}

/// Whether a mark is the one on which bits are put.
#[inline(always)]
pub(crate) fn is_at(change: &Change, mark: &Mark) -> bool
    ensures { result ≡ is_at change.now mark.now }
{
    match *change {
        Change::Put { group, class, .. } => mark.order().0 == Order::of(class, group).0,
        _ => false,
    }
}

/// Whether what is left of a mark is the mark itself.
#[inline(always)]
pub(crate) fn stays(left: Option<Mark>, mark: Mark) -> bool
    ensures { result ≡ stays left mark }
{
    left == Some(mark)
}
