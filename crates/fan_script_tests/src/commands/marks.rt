// Changes of marks, what they refuse, and what becomes of marks that are taken away.
use super::assert_plays;
use std::test::Fail;

// Changes that a mask, a group or a path rules out, and a flush, which looks at no path.
const REFUSED: &str = "\
mkfile /a > inode 4
init 0 > group 1
init 4 > group 2
mark 1 1 10000 /a > EINVAL
mark 2 1 10000 /a > ok
mark 1 1 0 /a > EINVAL
mark 1 3 20 /a > EINVAL
mark 1 1 100 /a > EINVAL
mark 1 2 20 /a > ENOENT
mark 9 1 20 /a > EBADF
mark 1 9 20 /a > ENOTDIR
mark 1 1 20 /b > ENOENT
mark 1 80 0 /zz > ok
";

#[test]
fn a_change_of_marks_is_refused_with_its_reason(rt: HostRuntime) -> Result<(), Fail> {
    assert_plays(&rt, REFUSED)
}

// A mark is taken from one group and given to another while an access waits.
const CHANGED_BETWEEN: &str = "\
mkfile /a > inode 4
init 4 > group 1
init 4 > group 2
mark 1 1 10000 /a > ok
begin 1 50 50 open /a > ok
run 1 > asked 1, blocked 1
mark 1 2 10000 /a > ok
mark 2 1 10000 /a > ok
grace > reclaimed 0
grace > reclaimed 0
read 1 24 > bytes 180000000300180000000100000000000000000032000000
write 1 0000000001000000 > ok
run 1 > allowed 1, done
grace > reclaimed 1
begin 2 51 51 open /a > ok
run 2 > asked 2, blocked 2
begin 2 51 51 open /a > EEXIST
";

#[test]
fn an_access_goes_by_the_marks_of_its_begin(rt: HostRuntime) -> Result<(), Fail> {
    assert_plays(&rt, CHANGED_BETWEEN)
}

// A write empties an ignored set, and not one that survives modification.
const IGNORED: &str = "\
mkfile /a > inode 4
init 0 > group 1
mark 1 1 20 /a > ok
mark 1 21 20 /a > ok
begin 1 50 50 open /a > ok
run 1 > done
begin 2 50 50 write /a > ok
run 2 > done
begin 3 50 50 open /a > ok
run 3 > told 1 queued, done
mark 1 61 20 /a > ok
begin 4 50 50 write /a > ok
run 4 > done
begin 5 50 50 open /a > ok
run 5 > done
grace > reclaimed 0
grace > reclaimed 3
";

#[test]
fn a_write_empties_the_ignored_sets_that_do_not_survive_it(rt: HostRuntime) -> Result<(), Fail> {
    assert_plays(&rt, IGNORED)
}

// A mark that is replaced and then flushed is reclaimed as two.
const RETIRED: &str = "\
mkfile /a > inode 4
init 20 > group 1
mark 1 1 20 /a > ok
mark 1 1 20 /a > ok
grace > reclaimed 0
mark 1 80 0 / > ok
grace > reclaimed 0
grace > reclaimed 1
grace > reclaimed 0
mark 1 2 20 /a > ENOENT
";

#[test]
fn each_mark_that_was_taken_away_is_reclaimed_once(rt: HostRuntime) -> Result<(), Fail> {
    assert_plays(&rt, RETIRED)
}
