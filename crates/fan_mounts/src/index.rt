// The mounts by what they stand on.
ghost use Rattle.std.specs.Prelude.{◌≡◌, ℕ, None, Some, IfOk, OnErr, OnOk, count_by, is_some, true, false};
ghost use Rattle.fan_bits.specs.Places.{IsObject};
ghost use Rattle.fan_mounts.specs.Pairs.{Drops, IsEmptied, IsSame, Puts, has_number, standing};

use super::mount::{Mount, MountPoint};
use fan_io::NoMemory;
use fan_seen::Seen;
use std::alloc::Global;
use std::collections::BTreeMap;
use std::marker::Model;

/// What stands on each directory as each mount shows it, by the numbers of the mount and the directory.
#[derive(Drop)]
pub(crate) struct Index {
    by_point: BTreeMap<(u32, u32), Mount>,
    // The same by the numbers of the directory and the mount, in this order.
    by_dir: BTreeMap<(u32, u32), Mount>,
    // The directories on which a mount stands, and others on which one stood.
    dirs: Seen,
}

impl Model for Index {
    ghost use Rattle.fan_mounts.specs.Index.{IsIndex};
    ghost use Rattle.fan_mounts.specs.Pairs.{Entries};

    ghost Value = { Entries };

    ghost view = { λ i. i.by_point.entries };

    ghost invariant = { λ i. IsIndex i.by_point.entries i.by_dir.entries i.dirs };
}

// Whether something stands at a first number.
fn has_first(by_pair: &BTreeMap<(u32, u32), Mount>, first: u32) -> bool
    ensures some { result ≡ true →
        (second : ℕ) × (is_some (standing by_pair.now.entries first second) ≡ true) }
    ensures none { result ≡ false →
        (second : ℕ) → standing by_pair.now.entries first second ≡ None }
{
    match by_pair.range((first, 0)..).next() {
        Some((pair, _)) => pair.0 == first,
        None => false,
    }
}

// Puts a mount at two numbers.
fn put(
    by_pair: &mut BTreeMap<(u32, u32), Mount>,
    first: u32,
    second: u32,
    found: Mount,
) -> Result<(), NoMemory>
    ensures ok { OnOk result
        (Puts (standing by_pair.old.entries) (standing by_pair.new.entries) first second (Some found)) }
    ensures err { OnErr result
        (IsSame (standing by_pair.old.entries) (standing by_pair.new.entries)) }
{
    by_pair.insert((first, second), found)?;
    Ok(())
}

// Takes away what stands at two numbers. Allocates nothing.
fn take(by_pair: &mut BTreeMap<(u32, u32), Mount>, first: u32, second: u32)
    ensures { Puts (standing by_pair.old.entries) (standing by_pair.new.entries) first second None }
{
    by_pair.remove(&(first, second));
}

impl Index {
    /// Nothing stands anywhere.
    pub(crate) fn new(alloc: Global) -> Result<Index, NoMemory>
        ensures { IfOk result (λ index. (mount dir : ℕ) → standing index mount dir ≡ None) }
    {
        Ok(Index {
            by_point: BTreeMap::new(alloc),
            by_dir: BTreeMap::new(alloc),
            dirs: Seen::new(alloc)?,
        })
    }

    /// The mount that stands on a directory of a mount. No search is made where none ever stood.
    pub(crate) fn at(&self, mount: u32, dir: u32) -> Option<Mount>
        ensures { result ≡ standing self.now mount dir }
    {
        if !self.dirs.has(dir) {
            return None;
        }
        self.by_point.get(&(mount, dir)).copied()
    }

    /// Whether some mount stands on a directory of a mount.
    pub(crate) fn has_mount(&self, mount: u32) -> bool
        ensures some { result ≡ true →
            (dir : ℕ) × (is_some (standing self.now mount dir) ≡ true) }
        ensures none { result ≡ false → (dir : ℕ) → standing self.now mount dir ≡ None }
    {
        has_first(&self.by_point, mount)
    }

    /// Whether some mount stands on a directory, whichever mount shows that.
    pub(crate) fn has_dir(&self, dir: u32) -> bool
        ensures some { result ≡ true →
            (mount : ℕ) × (is_some (standing self.now mount dir) ≡ true) }
        ensures none { result ≡ false → (mount : ℕ) → standing self.now mount dir ≡ None }
    {
        has_first(&self.by_dir, dir)
    }

    /// Puts a mount on a directory of a mount, on which none stands.
    pub(crate) fn insert(&mut self, mount: u32, dir: u32, found: Mount) -> Result<(), NoMemory>
        requires object { IsObject dir }
        requires free { standing self.old mount dir ≡ None }
        ensures ok { OnOk result
            (Puts (standing self.old) (standing self.new) mount dir (Some found)) }
        ensures err { OnErr result (IsSame (standing self.old) (standing self.new)) }
    {
        self.dirs.add(dir);
        put(&mut self.by_point, mount, dir, found)?;
        if put(&mut self.by_dir, dir, mount, found).is_ok() {
            return Ok(());
        }
        take(&mut self.by_point, mount, dir);
        Err(NoMemory)
    }

    /// Removes those mounts of a list that have a number from where they stand, and counts them.
    /// Allocates nothing.
    pub(crate) fn remove_all(&mut self, mounts: &[Mount], number: u32) -> usize
        ensures dropped { Drops (standing self.old) (standing self.new) number mounts.now }
        ensures count { result ≡ count_by (has_number number) mounts.now }
    {
        let mut left = mounts;
        let mut count = 0;
        while let Some((mount, rest)) = left.split_first() {
            if mount.number == number {
                self.remove(mount.point);
                count += 1;
            }
            left = rest;
        }
        count
    }

    // Removes what stands at a point, if it is one.
    fn remove(&mut self, point: Option<MountPoint>)
        ensures { IsEmptied (standing self.old) (standing self.new) point }
    {
        if let Some(point) = point {
            take(&mut self.by_point, point.mount, point.dir);
            take(&mut self.by_dir, point.dir, point.mount);
        }
    }
}
