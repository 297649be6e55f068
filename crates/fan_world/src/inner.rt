// The machine inside: its parts, over any table of marks, and which of them does a step.
ghost use Rattle.std.specs.Prelude.{◌≡◌, ◌+◌, ◌<◌, ◌^◌, ℕ, [], IfOk, Ok, OnErr};
ghost use Rattle.fan_machine.specs.Batches.{graced};
ghost use Rattle.fan_machine.specs.Next.{attempted};
ghost use Rattle.fan_machine.specs.World.{WorldState, initial_world};
ghost use Rattle.fan_script.specs.declared.step.Step.{Step};
ghost use Rattle.fan_world.specs.Bounds.{IsSafe};
ghost use Rattle.fan_world.specs.Done.{IsDone};
ghost use Rattle.fan_world.specs.Machine.{IsMachineOver};
ghost use Rattle.fan_world.specs.Shown.{IsShown};

use super::begin_steps::Actor;
use super::files::Files;
use super::group_steps::MAX_LIMIT;
use super::marks::Marks;
use super::open_accesses::OpenAccesses;
use super::refused::Refused;
use super::sections::Sections;
use fan_groups::Groups;
use fan_io::NoMemory;
use fan_script::{Reply, Step};
use std::alloc::Global;
use std::marker::Model;

/// The parts of the machine. A step that is refused, or finds no memory, changes nothing.
#[derive(Drop)]
pub(crate) struct Inner<S: Sections> {
    pub(crate) alloc: Global,
    pub(crate) files: Files,
    pub(crate) groups: Groups,
    pub(crate) marks: Marks<S>,
    pub(crate) accesses: OpenAccesses,
    // How many entries fill the queue of a group that is made now.
    pub(crate) limit: u32,
    steps: u32,
}

impl<S: Sections> Model for Inner<S> {
    ghost use Rattle.fan_world.specs.Limits.{IsLimit};
    ghost use Rattle.fan_world.specs.Machine.{PartsOver};

    ghost Value = { PartsOver S };

    ghost view = { λ m. record {
      tree = m.files.tree;
      mounts = m.files.mounts;
      groups = m.groups;
      sections = m.marks.sections;
      marks = m.marks.marks;
      waiting = m.marks.waiting;
      batch = m.marks.batch;
      accesses = m.accesses.entries;
      last_access = m.accesses.last;
      limit = m.limit;
      steps = m.steps;
    } };

    ghost invariant = { λ m. IsLimit m.limit };
}

impl<S: Sections> Inner<S> {
    /// A filesystem with its root, mounted at `/`, and no group, over a table without marks and
    /// sections.
    pub(crate) fn over(alloc: Global, sections: S) -> Result<Inner<S>, NoMemory>
        requires inside { S.inside sections [] }
        requires present { S.honest sections → S.present sections [] }
        ensures machine { IfOk result (λ inner. S.honest sections
            → IsMachineOver S.shows S.honest inner initial_world) }
        ensures sections { IfOk result (λ inner. inner.sections ≡ sections) }
        ensures safe { IfOk result (λ inner. IsSafe S.inside 0 inner) }
        ensures steps { IfOk result (λ inner. inner.steps ≡ 0) }
    {
        Ok(Inner {
            alloc,
            files: Files::new(alloc)?,
            groups: Groups::new(alloc),
            marks: Marks::over(alloc, sections)?,
            accesses: OpenAccesses::new(alloc),
            limit: MAX_LIMIT,
            steps: 0,
        })
    }

    /// The table by whose sections accesses go.
    pub(crate) fn table(&self) -> &S
        ensures value { result.now ≡ self.now.sections }
        ensures present { S.honest self.now.sections → S.present self.now.sections self.now.marks }
    {
        self.marks.sections()
    }

    /// How many steps were counted.
    pub(crate) fn steps(&self) -> u32
        ensures { result ≡ self.now.steps }
    {
        self.steps
    }

    /// Counts a step that was done or refused.
    pub(crate) fn count_step(&mut self)
        requires { self.old.steps < 2 ^ 30 }
        ensures { self.new ≡ record self.old { steps = self.old.steps + 1 } }
    {
        self.steps += 1;
    }

    /// Does one step, without counting it, and gives its reply.
    #[tactic(auto, unfolding(fan_machine::specs::Next::attempted))]
    pub(crate) fn attempt(&mut self, step: &Step) -> Result<Reply, Refused>
        requires few { self.old.steps < 2 ^ 30 }
        requires safe { IsSafe S.inside self.old.steps self.old }
        ensures done { (world : WorldState) → IsMachineOver S.shows S.honest self.old world
            → IsDone S.shows S.honest self.new result (attempted world step.now) }
        ensures safe { IsSafe S.inside (self.old.steps + 1) self.new }
        ensures steps { self.new.steps ≡ self.old.steps }
        ensures shown { (number : ℕ) → step.now ≡ Step.Advance number
            → IsShown S.shows number self.old self.new result }
        ensures err { OnErr result (self.new ≡ self.old) }
    {
        match step {
            Step::MkFile { path } => self.make_entry(path.as_slice(), false),
            Step::MkDir { path } => self.make_entry(path.as_slice(), true),
            Step::MkFs => self.make_fs(),
            Step::Mount { fs, path } => self.mount(*fs, path.as_slice()),
            Step::Umount { path } => self.umount(path.as_slice()),
            Step::Limit { entries } => self.set_limit(*entries),
            Step::Init { flags } => self.init(*flags),
            Step::Mark {
                group,
                flags,
                mask,
                path,
            } => self.mark(*group, *flags, *mask, path.as_slice()),
            Step::Begin {
                access,
                pid,
                tid,
                op,
                path,
                second,
            } => {
                let who = Actor {
                    number: *access,
                    pid: *pid,
                    tid: *tid,
                };
                self.begin(who, *op, path.as_slice(), second)
            }
            Step::Advance { access } => self.advance(*access),
            Step::Read { group, size } => self.read(*group, *size),
            Step::Write { group, bytes } => self.write(*group, bytes.as_slice()),
            Step::Close { group } => self.close(*group),
            Step::Grace => Ok(self.grace()),
        }
    }

    /// `grace`: reclaims retired marks, and starts a batch of those that wait.
    #[tactic(auto, unfolding(fan_machine::specs::Batches::graced))]
    fn grace(&mut self) -> Reply
        requires safe { IsSafe S.inside self.old.steps self.old }
        ensures done { (world : WorldState) → IsMachineOver S.shows S.honest self.old world
            → IsDone S.shows S.honest self.new (Ok result) (graced world) }
        ensures safe { IsSafe S.inside (self.old.steps + 1) self.new }
        ensures steps { self.new.steps ≡ self.old.steps }
    {
        Reply::Reclaimed(self.marks.grace(&self.accesses))
    }
}
