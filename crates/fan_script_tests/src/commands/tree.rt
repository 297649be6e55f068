// Files, directories and mounts, and marks on them.
use super::assert_plays;
use std::test::Fail;

// The root exists, and a parent has to exist and be a directory.
const NAMES: &str = "\
mkfile / > EEXIST
mkfile /p/q > ENOENT
mkfile /p > inode 4
mkfile /p/q > ENOTDIR
mkdir /e > inode 5
mkfile /e/f > inode 6
";

#[test]
fn a_name_is_made_in_a_directory_that_exists(rt: HostRuntime) -> Result<(), Fail> {
    assert_plays(&rt, NAMES)
}

// A mark on a directory, then on its children too, and then on directories as well.
const DIRECTORIES: &str = "\
mkdir /d > inode 4
mkfile /d/f > inode 5
mkdir /d/s > inode 6
mkfile /d/s/g > inode 7
init 0 > group 1
mark 1 1 20 /d > ok
begin 1 50 50 open /d/f > ok
run 1 > done
begin 2 50 50 open /d > ok
run 2 > done
mark 1 1 8000020 /d > ok
begin 3 50 50 open /d/f > ok
run 3 > told 1 queued, done
begin 4 50 50 open /d/s/g > ok
run 4 > done
begin 5 50 50 open /d/s > ok
run 5 > done
mark 1 1 40000000 /d > ok
begin 6 50 50 open /d/s > ok
run 6 > told 1 queued, done
begin 7 50 50 open /d > ok
run 7 > told 1 queued, done
";

#[test]
fn a_mark_on_a_directory_reaches_what_its_mask_names(rt: HostRuntime) -> Result<(), Fail> {
    assert_plays(&rt, DIRECTORIES)
}

// One filesystem is mounted twice, and one of its mounts taken away.
const MOUNTS: &str = "\
mkfs > fs 4
mkdir /x > inode 6
mkdir /y > inode 7
mount 4 /x > mount 8
mount 4 /y > mount 9
mkfile /x/f > inode 10
init 0 > group 1
init 0 > group 2
mark 1 11 20 /x > ok
mark 2 101 20 /y > ok
begin 1 41 41 open /x/f > ok
run 1 > told 1 queued, told 2 queued, done
begin 2 41 41 open /y/f > ok
run 2 > told 2 queued, done
begin 3 41 41 open /y/f > ok
umount /y > EBUSY
run 3 > told 2 merged, done
umount /y > ok
begin 4 41 41 open /y/f > ENOENT
umount / > EBUSY
umount /y > EINVAL
mount 4 /x > EBUSY
";

#[test]
fn marks_on_a_mount_and_on_its_filesystem_see_what_goes_through_them(
    rt: HostRuntime,
) -> Result<(), Fail> {
    assert_plays(&rt, MOUNTS)
}
