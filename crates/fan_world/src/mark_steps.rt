// `mark`: fanotify_mark(2).
ghost use Rattle.std.specs.Prelude.{◌≡◌, ◌≢◌, ◌≤◌, ◌+◌, ◌*◌, ◌<◌, ◌^◌, All, IfOk, IfSome, OnErr, false, true, length};
ghost use Rattle.fan_bits.specs.Marks.{IsChange, IsMarkList, changed, retired};
ghost use Rattle.fan_bits.specs.Refusals.{lacks_mark, makes_mark};
ghost use Rattle.fan_machine.specs.Marking.{change_for, marked, put_on};
ghost use Rattle.fan_bits.specs.Words.{class_of};
ghost use Rattle.fan_machine.specs.World.{WorldState};
ghost use Rattle.fan_world.specs.Bounds.{AreClassed, HasClass, IsClassed, IsSafe};
ghost use Rattle.fan_world.specs.Done.{IsDone};
ghost use Rattle.fan_world.specs.Machine.{IsMachineOver};

use super::inner::Inner;
use super::refused::Refused;
use super::sections::Sections;
use fan_bits::{Change, Errno, InitWords, MarkWords, Verb, mark_words};
use fan_script::Reply;

impl<S: Sections> Inner<S> {
    /// `mark`: EBADF, EINVAL, the walk, ENOTDIR, ENOENT, ENOSPC.
    #[tactic(auto, unfolding(fan_machine::specs::Marking::marked))]
    pub(crate) fn mark(
        &mut self,
        group: u32,
        flags: u32,
        mask: u64,
        path: &[u8],
    ) -> Result<Reply, Refused>
        requires few { self.old.steps < 2 ^ 30 }
        requires safe { IsSafe S.inside self.old.steps self.old }
        ensures done { (world : WorldState) → IsMachineOver S.shows S.honest self.old world
            → IsDone S.shows S.honest self.new result (marked world group flags mask path.now) }
        ensures safe { IsSafe S.inside (self.old.steps + 1) self.new }
        ensures steps { self.new.steps ≡ self.old.steps }
        ensures err { OnErr result (self.new ≡ self.old) }
    {
        let change = self.change_for(group, flags, mask, path)?;
        self.marks.reserve()?;
        self.marks.change(&change)?;
        Ok(Reply::Done)
    }

    // The change of marks that a call asks for: EBADF, EINVAL, the walk, ENOTDIR, ENOENT, ENOSPC.
    #[tactic(auto, unfolding(fan_machine::specs::Marking::change_for))]
    fn change_for(&self, group: u32, flags: u32, mask: u64, path: &[u8]) -> Result<Change, Errno>
        requires { AreClassed self.now.groups self.now.marks }
        ensures change { (world : WorldState) → IsMachineOver S.shows S.honest self.now world
            → result ≡ change_for world group flags mask path.now }
        ensures is_change { IfOk result (λ change. IsChange self.now.marks change) }
        ensures has_mark { IfOk result (λ change. lacks_mark self.now.marks change ≡ false) }
        ensures classed { IfOk result (λ change. IsClassed self.now.groups change) }
    {
        let Some(init) = self.groups.open_group(group) else {
            return Err(Errno::Ebadf);
        };
        let words = mark_words(flags, mask, init)?;
        if words.verb == Verb::Flush {
            return Ok(Change::Flush {
                group,
                kind: words.kind,
            });
        }
        self.put_on(group, init, words, path)
    }

    // Puts bits on the mark of a group, or takes them from it: the walk, ENOTDIR, ENOENT, ENOSPC.
    fn put_on(
        &self,
        group: u32,
        init: InitWords,
        words: MarkWords,
        path: &[u8],
    ) -> Result<Change, Errno>
        requires classes { AreClassed self.now.groups self.now.marks }
        requires class { HasClass self.now.groups group (class_of init.bits) }
        requires verb { words.verb ≢ Verb.Flush }
        ensures change { (world : WorldState) → IsMachineOver S.shows S.honest self.now world
            → result ≡ put_on world group init.bits words path.now }
        ensures is_change { IfOk result (λ change. IsChange self.now.marks change) }
        ensures has_mark { IfOk result (λ change. lacks_mark self.now.marks change ≡ false) }
        ensures classed { IfOk result (λ change. IsClassed self.now.groups change) }
    {
        let at = self.files.place(path)?;
        if words.only_dir && !at.dir {
            return Err(Errno::Enotdir);
        }
        let change = Change::Put {
            group,
            class: init.class(),
            words,
            object: at.object(words.kind),
        };
        match self.marks.refusal(&change, init.unlimited_marks()) {
            Some(errno) => Err(errno),
            None => Ok(change),
        }
    }
}
