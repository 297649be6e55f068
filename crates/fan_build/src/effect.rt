// What a change does to the rows below one: how much it takes, alters and leaves.
ghost use Rattle.std.specs.Prelude.{◌≡◌, ◌+◌, ◌<◌, ◌^◌, ◌||◌};
ghost use Rattle.fan_build.specs.Edits.{added_effect, no_effect, replaced_effect};
ghost use Rattle.fan_build.specs.Effects.{joined};

use fan_bits::Mark;

/// What a change does to the marks of a chain, or to those below an index row.
#[derive(Clone, Copy)]
pub(crate) struct Effect {
    /// Whether it alters a mark.
    pub(crate) altered: bool,
    /// Whether it leaves one.
    pub(crate) left: bool,
    /// How many rows it takes.
    pub(crate) taken: u64,
    /// How many marks it retires.
    pub(crate) marks: u64,
}

impl Effect {
    /// Nothing is altered.
    pub(crate) fn none(left: bool) -> Effect
        ensures { result ≡ no_effect left }
    {
        Effect {
            altered: false,
            left,
            taken: 0,
            marks: 0,
        }
    }

    /// A mark is added, if there is one, before others.
    pub(crate) fn added(new: Option<Mark>, left: bool) -> Effect
        ensures { result ≡ added_effect new left }
    {
        match new {
            None => Effect::none(left),
            Some(_) => Effect {
                altered: true,
                left: true,
                taken: 1,
                marks: 0,
            },
        }
    }

    /// A mark stays or is replaced by what is left of it, before others.
    pub(crate) fn replaced(left: Option<Mark>, stays: bool, rest: Effect) -> Effect
        requires taken { rest.taken + 1 < 2 ^ 64 }
        requires marks { rest.marks + 1 < 2 ^ 64 }
        ensures { result ≡ replaced_effect left stays rest }
    {
        if stays && !rest.altered {
            return Effect::none(true);
        }
        Effect {
            altered: true,
            left: left.is_some() || rest.left,
            taken: rest.taken + u64::from(left.is_some()),
            marks: rest.marks + u64::from(!stays),
        }
    }
}

/// The effects for the digits 0 to 3.
#[derive(Clone, Copy)]
pub(crate) struct Effects {
    pub(crate) first: Effect,
    pub(crate) second: Effect,
    pub(crate) third: Effect,
    pub(crate) fourth: Effect,
}

impl Effects {
    /// The effect below an index row. One is taken where a mark is altered and one is left.
    pub(crate) fn joined(&self) -> Effect
        requires taken { self.now.first.taken + self.now.second.taken + self.now.third.taken
            + self.now.fourth.taken + 1 < 2 ^ 64 }
        requires marks { self.now.first.marks + self.now.second.marks + self.now.third.marks
            + self.now.fourth.marks < 2 ^ 64 }
        ensures { result ≡ joined self.now }
    {
        let altered = any_of(
            self.first.altered,
            self.second.altered,
            self.third.altered,
            self.fourth.altered,
        );
        let left = any_of(
            self.first.left,
            self.second.left,
            self.third.left,
            self.fourth.left,
        );
        Effect {
            altered,
            left,
            taken: self.first.taken
                + self.second.taken
                + self.third.taken
                + self.fourth.taken
                + u64::from(altered && left),
            marks: self.first.marks + self.second.marks + self.third.marks + self.fourth.marks,
        }
    }
}

/// Whether one of four holds.
pub(crate) fn any_of(first: bool, second: bool, third: bool, fourth: bool) -> bool
    ensures { result ≡ (first || second || third || fourth) }
{
    first || second || third || fourth
}
