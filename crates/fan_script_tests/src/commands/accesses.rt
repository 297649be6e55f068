// Accesses that are asked, answered and told, and the events that their listeners read.
use super::assert_plays;
use std::test::Fail;

// A group of each class. What one of them denies, those behind it are neither asked nor told.
const CLASSES: &str = "\
mkfile /a > inode 4
init 0 > group 1
init 4 > group 2
init 8 > group 3
mark 1 1 20 /a > ok
mark 2 1 10000 /a > ok
mark 3 1 10000 /a > ok
begin 1 50 50 open /a > ok
run 1 > asked 3, blocked 3
read 3 24 > bytes 180000000300180000000100000000000000000032000000
write 3 0000000001000000 > ok
run 1 > allowed 3, asked 2, blocked 2
read 2 24 > bytes 180000000300180000000100000000000000000032000000
write 2 0000000002000000 > ok
run 1 > denied 2
read 1 24 > EAGAIN
run 1 > ESRCH
begin 2 50 50 open /a > ok
run 2 > asked 3, blocked 3
read 3 24 > bytes 180000000300180000000100000000000100000032000000
write 3 0100000002000000 > ok
run 2 > denied 3
read 2 24 > EAGAIN
read 1 24 > EAGAIN
";

#[test]
fn the_highest_class_is_asked_first_and_a_denial_ends_the_access(
    rt: HostRuntime,
) -> Result<(), Fail> {
    assert_plays(&rt, CLASSES)
}

// An entry is answered once it was read, and then no more.
const ONE_ANSWER: &str = "\
mkfile /a > inode 4
init 4 > group 1
mark 1 1 10000 /a > ok
begin 1 50 50 open /a > ok
run 1 > asked 1, blocked 1
write 1 0000000001000000 > ENOENT
read 1 24 > bytes 180000000300180000000100000000000000000032000000
write 1 0000000001000000 > ok
write 1 0000000001000000 > ENOENT
run 1 > allowed 1, done
";

// Responses that are cut short, have no such answer, or name no entry.
const BAD_ANSWERS: &str = "\
mkfile /a > inode 4
init 4 > group 1
mark 1 1 10000 /a > ok
begin 1 50 50 open /a > ok
run 1 > asked 1, blocked 1
write 1 0000000001000000 > ENOENT
read 1 24 > bytes 180000000300180000000100000000000000000032000000
write 1 00000000010000 > EINVAL
write 1 0000000003000000 > EINVAL
write 1 6300000003000000 > EINVAL
write 1 6300000001000000 > ENOENT
write 1 0000000001000000 > ok
";

#[test]
fn a_response_answers_an_entry_that_was_read_and_is_open(rt: HostRuntime) -> Result<(), Fail> {
    assert_plays(&rt, ONE_ANSWER)?;
    assert_plays(&rt, BAD_ANSWERS)
}

// Two accesses wait for a group that is closed, and a third comes later.
const CLOSED: &str = "\
mkfile /a > inode 4
mkfile /b > inode 5
init 4 > group 1
mark 1 1 10000 /a > ok
mark 1 1 10000 /b > ok
begin 1 50 50 open /a > ok
run 1 > asked 1, blocked 1
begin 2 51 51 open /b > ok
run 2 > asked 1, blocked 1
read 1 24 > bytes 180000000300180000000100000000000000000032000000
close 1 > ok
run 1 > closed 1, done
run 2 > closed 1, done
read 1 24 > EBADF
write 1 0000000001000000 > EBADF
close 1 > EBADF
begin 3 52 52 open /a > ok
run 3 > done
";

#[test]
fn a_closed_group_lets_the_accesses_go_on_that_wait_for_it(rt: HostRuntime) -> Result<(), Fail> {
    assert_plays(&rt, CLOSED)
}

// A read wants room for a whole record, and an event to give.
const READ: &str = "\
mkfile /a > inode 4
init 0 > group 1
mark 1 1 20 /a > ok
begin 7 41 41 open /a > ok
run 7 > told 1 queued, done
read 1 23 > EINVAL
read 1 24 > bytes 180000000300180020000000000000000000000029000000
read 1 24 > EAGAIN
";

#[test]
fn an_event_is_read_whole_and_once(rt: HostRuntime) -> Result<(), Fail> {
    assert_plays(&rt, READ)
}
