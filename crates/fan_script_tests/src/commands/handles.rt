// Groups that are told objects by handles and names, in place of descriptors.
use super::assert_plays;
use std::test::Fail;

// Two classes, names without directories, a class beside handles, and a flag that there isn't.
const REFUSED: &str = "\
init c > EINVAL
init 800 > EINVAL
init 204 > EINVAL
init 40 > EINVAL
init 0 > group 1
";

#[test]
fn flags_that_contradict_each_other_make_no_group(rt: HostRuntime) -> Result<(), Fail> {
    assert_plays(&rt, REFUSED)
}

// A file is told by its directory, and then by itself or by its name there. A record is read whole.
const FILE: &str = "\
mkfile /a > inode 4
init 600 > group 1
init c00 > group 2
mark 1 1 20 /a > ok
mark 2 1 20 /a > ok
begin 1 41 41 open /a > ok
run 1 > told 1 queued, told 2 queued, done
read 1 79 > EINVAL
read 1 80 > bytes 50000000030018002000000000000000ffffffff2900000003001c0001000000000000000800000001000000020000000000000001001c00010000000000000008000000010000000400000000000000
read 2 55 > EINVAL
read 2 56 > bytes 38000000030018002000000000000000ffffffff290000000200200001000000000000000800000001000000020000000000000061000000
";

#[test]
fn a_file_is_told_by_its_directory_and_by_itself_or_its_name(rt: HostRuntime) -> Result<(), Fail> {
    assert_plays(&rt, FILE)
}

// The name is the last of the path, that of the entry in its directory.
const FOUR_GROUPS: &str = "\
mkdir /dir > inode 4
mkfile /dir/file > inode 5
init 200 > group 1
init 400 > group 2
init c00 > group 3
init e00 > group 4
mark 1 1 8000020 /dir > ok
mark 2 1 8000020 /dir > ok
mark 3 1 8000020 /dir > ok
mark 4 1 8000020 /dir > ok
begin 1 41 41 open /dir/file > ok
run 1 > told 1 queued, told 2 queued, told 3 queued, told 4 queued, done
read 1 4096 > bytes 34000000030018002000000000000000ffffffff2900000001001c00010000000000000008000000010000000500000000000000
read 2 4096 > bytes 34000000030018002000000000000000ffffffff2900000003001c00010000000000000008000000010000000400000000000000
read 3 4096 > bytes 3c000000030018002000000000000000ffffffff290000000200240001000000000000000800000001000000040000000000000066696c6500000000
read 4 4096 > bytes 58000000030018002000000000000000ffffffff290000000200240001000000000000000800000001000000040000000000000066696c650000000001001c00010000000000000008000000010000000500000000000000
";

#[test]
fn each_group_is_told_the_handles_that_its_flags_ask_for(rt: HostRuntime) -> Result<(), Fail> {
    assert_plays(&rt, FOUR_GROUPS)
}

// A directory is told by itself and `.`, also where a path reaches it as the root of a mount.
const DIRECTORY: &str = "\
mkfs > fs 4
mkdir /d > inode 6
mkdir /x > inode 7
mount 4 /x > mount 8
init c00 > group 1
mark 1 1 40000020 /d > ok
mark 1 101 40000020 /x > ok
begin 1 41 41 open /d > ok
run 1 > told 1 queued, done
begin 2 41 41 open /x > ok
run 2 > told 1 queued, done
read 1 55 > EINVAL
read 1 56 > bytes 38000000030018002000004000000000ffffffff29000000020020000100000000000000080000000100000006000000000000002e000000
read 1 56 > bytes 38000000030018002000004000000000ffffffff29000000020020000400000000000000080000000100000005000000000000002e000000
";

#[test]
fn a_directory_is_told_by_itself_and_a_dot(rt: HostRuntime) -> Result<(), Fail> {
    assert_plays(&rt, DIRECTORY)
}

// Events merge that are told by the same directory; with names, only those of the same entry. An event
// that is lost has no object.
const MERGED: &str = "\
limit 2 > ok
mkfile /a > inode 4
mkfile /b > inode 5
init 400 > group 1
init c00 > group 2
mark 1 1 22 /a > ok
mark 1 1 22 /b > ok
mark 2 1 22 /a > ok
mark 2 1 22 /b > ok
begin 1 41 41 open /a > ok
run 1 > told 1 queued, told 2 queued, done
begin 2 41 41 write /b > ok
run 2 > told 1 merged, told 2 queued, done
begin 3 41 41 open /b > ok
run 3 > told 1 merged, told 2 overflow, done
read 1 4096 > bytes 34000000030018002200000000000000ffffffff2900000003001c00010000000000000008000000010000000200000000000000
read 2 4096 > bytes 38000000030018002000000000000000ffffffff29000000020020000100000000000000080000000100000002000000000000006100000038000000030018000200000000000000ffffffff29000000020020000100000000000000080000000100000002000000000000006200000018000000030018000040000000000000ffffffff00000000
";

#[test]
fn events_merge_by_the_handles_and_names_that_tell_them(rt: HostRuntime) -> Result<(), Fail> {
    assert_plays(&rt, MERGED)
}

// What happens to entries of a directory, and to objects themselves, is told by handles alone.
const WITHOUT_HANDLES: &str = "\
init 0 > group 1
init 200 > group 2
mark 1 1 100 / > EINVAL
mark 2 1 fc4 / > ok
mark 2 11 100 / > EINVAL
mark 2 101 fc4 / > ok
mark 2 1 10000 / > EINVAL
";

#[test]
fn some_events_are_told_by_handles_alone(rt: HostRuntime) -> Result<(), Fail> {
    assert_plays(&rt, WITHOUT_HANDLES)
}
