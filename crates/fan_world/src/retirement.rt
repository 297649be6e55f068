// Retired marks, as they are counted, and the batches in which they are reclaimed.
ghost use Rattle.std.specs.Prelude.{◌≡◌, ◌+◌, ◌<◌, ◌^◌, ◌≤◌, All, None};
ghost use Rattle.std.specs.Map.{keys_of};
ghost use Rattle.fan_world.specs.Retired.{kept_grace, kept_start, reclaimed_count, still_held};

use super::open_accesses::OpenAccesses;

/// A batch under way.
#[derive(Clone, Copy, Debug, PartialEq, Eq)]
pub(crate) struct KeptBatch {
    /// How many retired marks it has.
    pub(crate) marks: u64,
    /// The greatest number that an access had when it started: since numbers rise, its accesses are the
    /// open ones up to it.
    pub(crate) last_access: u32,
}

/// How many retired marks wait for a batch, and the batch under way.
#[derive(Clone, Copy, Debug, PartialEq, Eq)]
pub(crate) struct Retirement {
    /// How many wait.
    pub(crate) waiting: u64,
    /// The batch, if one is under way.
    pub(crate) batch: Option<KeptBatch>,
}

impl Retirement {
    /// Nothing is retired.
    pub(crate) fn new() -> Retirement
        ensures waiting { result.waiting ≡ 0 }
        ensures batch { result.batch ≡ None }
    {
        Retirement {
            waiting: 0,
            batch: None,
        }
    }

    /// Counts marks that a step retired.
    pub(crate) fn retire(&mut self, marks: u32)
        requires { self.old.waiting + marks < 2 ^ 64 }
        ensures waiting { self.new.waiting ≡ self.old.waiting + marks }
        ensures batch { self.new.batch ≡ self.old.batch }
    {
        self.waiting += u64::from(marks);
    }

    /// Ends the batch under way, if no access of it is open, and then starts one, if none is under way and
    /// something waits. Gives how many marks were reclaimed.
    pub(crate) fn grace(&mut self, accesses: &OpenAccesses) -> u64
        ensures reclaimed { result ≡ reclaimed_count accesses.now.entries self.old.batch }
        ensures kept { self.new ≡ kept_grace accesses.now.entries accesses.now.last self.old }
        ensures begun { All (λ number. number ≤ accesses.now.last)
            (keys_of accesses.now.entries) }
    {
        let reclaimed = self.reclaim(accesses);
        self.start(accesses.last());
        reclaimed
    }

    // Ends the batch under way, if no access of it is open.
    fn reclaim(&mut self, accesses: &OpenAccesses) -> u64
        ensures reclaimed { result ≡ reclaimed_count accesses.now.entries self.old.batch }
        ensures batch { self.new.batch ≡ still_held accesses.now.entries self.old.batch }
        ensures waiting { self.new.waiting ≡ self.old.waiting }
    {
        match self.batch {
            Some(batch) if !accesses.has_up_to(batch.last_access) => {
                self.batch = None;
                batch.marks
            }
            _ => 0,
        }
    }

    // Starts a batch with all that waits, if none is under way.
    fn start(&mut self, last_access: u32)
        ensures { self.new ≡ kept_start self.old.waiting last_access self.old.batch }
    {
        if self.batch.is_none() && self.waiting > 0 {
            self.batch = Some(KeptBatch {
                marks: self.waiting,
                last_access,
            });
            self.waiting = 0;
        }
    }
}
