// Steps of groups and their listeners: fanotify_init(2), read(2), write(2), close(2).
ghost use Rattle.std.specs.Prelude.{◌≡◌, ◌+◌, ◌<◌, ◌^◌, OnErr};
ghost use Rattle.fan_bits.specs.Words.{is_init_flags};
ghost use Rattle.fan_machine.specs.Groups.{group_closed, group_made, group_read, group_written, limit_set};
ghost use Rattle.fan_machine.specs.World.{WorldState};
ghost use Rattle.fan_world.specs.Bounds.{IsSafe};
ghost use Rattle.fan_world.specs.Done.{IsDone};
ghost use Rattle.fan_world.specs.Machine.{IsMachineOver};

use super::inner::Inner;
use super::refused::Refused;
use super::sections::Sections;
use fan_bits::{Change, Errno, init_words};
use fan_io::Items;
use fan_script::Reply;

// How many groups may be open.
const MAX_OPEN_GROUPS: usize = 128;

/// How many entries fill a queue at most.
pub(crate) const MAX_LIMIT: u32 = 16_384;

impl<S: Sections> Inner<S> {
    /// `limit`: how many entries fill the queue of a group that is made later. EINVAL for a limit that no
    /// line has. Allocates nothing.
    #[tactic(auto, unfolding(fan_machine::specs::Groups::limit_set))]
    pub(crate) fn set_limit(&mut self, entries: u32) -> Result<Reply, Refused>
        requires safe { IsSafe S.inside self.old.steps self.old }
        ensures done { (world : WorldState) → IsMachineOver S.shows S.honest self.old world
            → IsDone S.shows S.honest self.new result (limit_set world entries) }
        ensures safe { IsSafe S.inside (self.old.steps + 1) self.new }
        ensures steps { self.new.steps ≡ self.old.steps }
        ensures err { OnErr result (self.new ≡ self.old) }
    {
        if entries < 1 || entries > MAX_LIMIT {
            return Err(Refused::No(Errno::Einval));
        }
        self.limit = entries;
        Ok(Reply::Done)
    }

    /// `init`: EINVAL, EMFILE.
    #[tactic(auto, unfolding(fan_machine::specs::Groups::group_made))]
    pub(crate) fn init(&mut self, flags: u32) -> Result<Reply, Refused>
        requires few { self.old.steps < 2 ^ 30 }
        requires safe { IsSafe S.inside self.old.steps self.old }
        ensures done { (world : WorldState) → IsMachineOver S.shows S.honest self.old world
            → IsDone S.shows S.honest self.new result (group_made world flags) }
        ensures safe { IsSafe S.inside (self.old.steps + 1) self.new }
        ensures steps { self.new.steps ≡ self.old.steps }
        ensures err { OnErr result (self.new ≡ self.old) }
    {
        let init = init_words(flags)?;
        if self.groups.open_count() >= MAX_OPEN_GROUPS {
            return Err(Refused::No(Errno::Emfile));
        }
        Ok(Reply::Group(self.groups.make(init, self.limit)?))
    }

    /// `read`: EBADF, EAGAIN, EINVAL.
    #[tactic(auto, unfolding(fan_machine::specs::Groups::group_read))]
    pub(crate) fn read(&mut self, group: u32, size: u32) -> Result<Reply, Refused>
        requires few { self.old.steps < 2 ^ 30 }
        requires safe { IsSafe S.inside self.old.steps self.old }
        ensures done { (world : WorldState) → IsMachineOver S.shows S.honest self.old world
            → IsDone S.shows S.honest self.new result (group_read world group size) }
        ensures safe { IsSafe S.inside (self.old.steps + 1) self.new }
        ensures steps { self.new.steps ≡ self.old.steps }
        ensures err { OnErr result (self.new ≡ self.old) }
    {
        let bytes = self.groups.read(group, size)?;
        Ok(Reply::Bytes(Items::from_vec(bytes)))
    }

    /// `write`: EBADF, EINVAL, ENOENT.
    #[tactic(auto, unfolding(fan_machine::specs::Groups::group_written))]
    pub(crate) fn write(&mut self, group: u32, bytes: &[u8]) -> Result<Reply, Refused>
        requires safe { IsSafe S.inside self.old.steps self.old }
        ensures done { (world : WorldState) → IsMachineOver S.shows S.honest self.old world
            → IsDone S.shows S.honest self.new result (group_written world group bytes.now) }
        ensures safe { IsSafe S.inside (self.old.steps + 1) self.new }
        ensures steps { self.new.steps ≡ self.old.steps }
        ensures err { OnErr result (self.new ≡ self.old) }
    {
        self.groups.write(group, bytes)?;
        Ok(Reply::Done)
    }

    /// `close`: EBADF. The queue of the group is freed, and its marks go.
    #[tactic(auto, unfolding(fan_machine::specs::Groups::group_closed))]
    pub(crate) fn close(&mut self, group: u32) -> Result<Reply, Refused>
        requires few { self.old.steps < 2 ^ 30 }
        requires safe { IsSafe S.inside self.old.steps self.old }
        ensures done { (world : WorldState) → IsMachineOver S.shows S.honest self.old world
            → IsDone S.shows S.honest self.new result (group_closed world group) }
        ensures safe { IsSafe S.inside (self.old.steps + 1) self.new }
        ensures steps { self.new.steps ≡ self.old.steps }
        ensures err { OnErr result (self.new ≡ self.old) }
    {
        if self.groups.open_group(group).is_none() {
            return Err(Refused::No(Errno::Ebadf));
        }
        self.marks.change(&Change::DropGroup { group })?;
        if !self.groups.close(group) {
            unreachable!();
        }
        Ok(Reply::Done)
    }
}
