// What single steps of an access do.
ghost use Rattle.std.specs.Prelude.{◌≡◌};
ghost use Rattle.fan_bits.specs.Outcomes.{ends_access, ends_run};

/// What one single step of an access did; each but the last names the group.
#[derive(Clone, Copy, Debug, PartialEq, Eq)]
pub enum StepOutcome {
    /// The group is asked: a permission event is queued, and the access waits for its answer.
    Asked(u32),
    /// The access still waits for the answer of the group.
    Blocked(u32),
    /// The group allowed the access, which goes on.
    Allowed(u32),
    /// The group denied the access, which is finished.
    Denied(u32),
    /// The group is closed: it gave no answer, or is not asked or told, and the access goes on.
    Closed(u32),
    /// The permission event was dropped at the limit of the group's queue, and the access goes on.
    Full(u32),
    /// The group was told, and the event is queued.
    Queued(u32),
    /// The group was told, and a queued event took the bits.
    Merged(u32),
    /// The event was dropped at the limit of the group's queue; the overflow event stands for it.
    Overflow(u32),
    /// The access is finished.
    Done,
}

impl StepOutcome {
    /// Whether a run of single steps stops here: the access waits for an answer, or is finished.
    pub fn ends_run(self) -> bool
        ensures { result ≡ ends_run self }
    {
        matches!(self, StepOutcome::Blocked(_)) || self.ends_access()
    }

    /// Whether the access is finished: it was denied, or has nothing left to do.
    pub fn ends_access(self) -> bool
        ensures { result ≡ ends_access self }
    {
        matches!(self, StepOutcome::Denied(_) | StepOutcome::Done)
    }
}
