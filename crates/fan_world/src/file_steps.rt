// Steps that change the file tree and its mounts: mknod(2), mkdir(2), mount(2), umount(2).
ghost use Rattle.std.specs.Prelude.{◌≡◌, ◌+◌, ◌<◌, ◌^◌, OnErr};
ghost use Rattle.std.specs.List.{list_any};
ghost use Rattle.fan_machine.specs.Files.{entry_made, fs_made, fs_mounted, fs_unmounted, goes_through};
ghost use Rattle.fan_machine.specs.World.{WorldState};
ghost use Rattle.fan_world.specs.Bounds.{IsSafe};
ghost use Rattle.fan_world.specs.Done.{IsDone};
ghost use Rattle.fan_world.specs.Machine.{IsMachineOver};

use super::inner::Inner;
use super::refused::Refused;
use super::sections::Sections;
use fan_bits::{Change, Errno};
use fan_mounts::split_last;
use fan_script::Reply;

impl<S: Sections> Inner<S> {
    /// `mkfile` and `mkdir`: EEXIST at `/`, the walk of the directory, ENOTDIR, EEXIST, ENOSPC.
    #[tactic(auto, unfolding(fan_machine::specs::Files::entry_made, fan_mounts::specs::Reaches::place_of))]
    pub(crate) fn make_entry(&mut self, path: &[u8], is_dir: bool) -> Result<Reply, Refused>
        requires safe { IsSafe S.inside self.old.steps self.old }
        ensures done { (world : WorldState) → IsMachineOver S.shows S.honest self.old world
            → IsDone S.shows S.honest self.new result (entry_made world path.now is_dir) }
        ensures safe { IsSafe S.inside (self.old.steps + 1) self.new }
        ensures steps { self.new.steps ≡ self.old.steps }
        ensures err { OnErr result (self.new ≡ self.old) }
    {
        let Some((before, name)) = split_last(path) else {
            return Err(Refused::No(Errno::Eexist));
        };
        let dir = self.files.place(before)?;
        let number = self.files.make_entry(dir.inode, name, is_dir)??;
        Ok(Reply::Inode(number))
    }

    /// `mkfs`: ENOSPC.
    #[tactic(auto, unfolding(fan_machine::specs::Files::fs_made))]
    pub(crate) fn make_fs(&mut self) -> Result<Reply, Refused>
        requires safe { IsSafe S.inside self.old.steps self.old }
        ensures done { (world : WorldState) → IsMachineOver S.shows S.honest self.old world
            → IsDone S.shows S.honest self.new result (fs_made world) }
        ensures safe { IsSafe S.inside (self.old.steps + 1) self.new }
        ensures steps { self.new.steps ≡ self.old.steps }
        ensures err { OnErr result (self.new ≡ self.old) }
    {
        Ok(Reply::Fs(self.files.make_fs()??))
    }

    /// `mount`: ENOENT, the walk, ENOTDIR, EBUSY, ENOSPC.
    #[tactic(auto, unfolding(fan_machine::specs::Files::fs_mounted))]
    pub(crate) fn mount(&mut self, fs: u32, path: &[u8]) -> Result<Reply, Refused>
        requires safe { IsSafe S.inside self.old.steps self.old }
        ensures done { (world : WorldState) → IsMachineOver S.shows S.honest self.old world
            → IsDone S.shows S.honest self.new result (fs_mounted world fs path.now) }
        ensures safe { IsSafe S.inside (self.old.steps + 1) self.new }
        ensures steps { self.new.steps ≡ self.old.steps }
        ensures err { OnErr result (self.new ≡ self.old) }
    {
        if !self.files.has_fs(fs) {
            return Err(Refused::No(Errno::Enoent));
        }
        let at = self.files.place(path)?;
        Ok(Reply::Mount(self.files.mount(fs, at)??))
    }

    /// `umount`: the walk, EINVAL, EBUSY. The marks on the mount go.
    #[tactic(auto, unfolding(fan_machine::specs::Files::fs_unmounted))]
    pub(crate) fn umount(&mut self, path: &[u8]) -> Result<Reply, Refused>
        requires few { self.old.steps < 2 ^ 30 }
        requires safe { IsSafe S.inside self.old.steps self.old }
        ensures done { (world : WorldState) → IsMachineOver S.shows S.honest self.old world
            → IsDone S.shows S.honest self.new result (fs_unmounted world path.now) }
        ensures safe { IsSafe S.inside (self.old.steps + 1) self.new }
        ensures steps { self.new.steps ≡ self.old.steps }
        ensures err { OnErr result (self.new ≡ self.old) }
    {
        let at = self.files.place(path)?;
        if at.parent.is_some() {
            return Err(Refused::No(Errno::Einval));
        }
        if self.is_used(at.mount) {
            return Err(Refused::No(Errno::Ebusy));
        }
        self.files.can_unmount(at.mount)?;
        self.marks.change(&Change::DropObject { object: at.mount })?;
        match self.files.unmount(at.mount) {
            Ok(()) => Ok(Reply::Done),
            Err(_) => unreachable!(),
        }
    }

    // Whether an access is open that was begun through a mount.
    fn is_used(&self, mount: u32) -> bool
        ensures { (world : WorldState) → IsMachineOver S.shows S.honest self.now world
            → result ≡ list_any (goes_through mount) world.accesses }
    {
        self.accesses.has_through(mount)
    }
}
