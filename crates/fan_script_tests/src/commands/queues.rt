// Queues at their limits, merged events and lost ones.
use super::assert_plays;
use std::test::Fail;

// At the limit events are lost, and one overflow event tells of them all.
const LOST: &str = "\
limit 2 > ok
mkfile /a > inode 4
mkfile /b > inode 5
init 0 > group 1
mark 1 1 20 /a > ok
mark 1 1 20 /b > ok
begin 1 41 41 open /a > ok
run 1 > told 1 queued, done
begin 2 41 41 open /b > ok
run 2 > told 1 queued, done
begin 3 41 41 open /a > ok
run 3 > told 1 overflow, done
begin 4 41 41 open /b > ok
run 4 > told 1 overflow, done
read 1 72 > bytes 18000000030018002000000000000000000000002900000018000000030018002000000000000000010000002900000018000000030018000040000000000000ffffffff00000000
read 1 24 > EAGAIN
";

#[test]
fn events_beyond_the_limit_are_told_as_one_overflow(rt: HostRuntime) -> Result<(), Fail> {
    assert_plays(&rt, LOST)
}

// A permission event that finds the queue full asks nobody, and its access goes on.
const UNASKED: &str = "\
limit 1 > ok
mkfile /a > inode 4
mkfile /b > inode 5
init 4 > group 1
mark 1 1 10000 /a > ok
mark 1 1 10000 /b > ok
begin 1 50 50 open /a > ok
run 1 > asked 1, blocked 1
begin 2 51 51 open /b > ok
run 2 > full 1, done
read 1 48 > bytes 18000000030018000000010000000000000000003200000018000000030018000040000000000000ffffffff00000000
write 1 0000000001000000 > ok
run 1 > allowed 1, done
";

#[test]
fn an_access_that_finds_the_queue_full_is_not_asked_about(rt: HostRuntime) -> Result<(), Fail> {
    assert_plays(&rt, UNASKED)
}

// Events of one process on one file merge; permission events never do.
const MERGED: &str = "\
mkfile /a > inode 4
init 4 > group 1
mark 1 1 21 /a > ok
begin 1 41 41 open /a > ok
run 1 > told 1 queued, done
begin 2 41 41 open /a > ok
run 2 > told 1 merged, done
begin 4 42 42 open /a > ok
run 4 > told 1 queued, done
read 1 4096 > bytes 18000000030018002000000000000000000000002900000018000000030018002000000000000000010000002a000000
mark 1 2 21 /a > ok
mark 1 1 10000 /a > ok
begin 5 41 41 open /a > ok
run 5 > asked 1, blocked 1
begin 6 41 41 open /a > ok
run 6 > asked 1, blocked 1
read 1 4096 > bytes 180000000300180000000100000000000200000029000000180000000300180000000100000000000300000029000000
";

#[test]
fn events_merge_by_process_and_file_and_permission_events_never(
    rt: HostRuntime,
) -> Result<(), Fail> {
    assert_plays(&rt, MERGED)
}

// A group with FAN_REPORT_TID is told the thread.
const THREADS: &str = "\
mkfile /a > inode 4
init 100 > group 1
mark 1 1 20 /a > ok
begin 7 41 42 open /a > ok
run 7 > told 1 queued, done
read 1 23 > EINVAL
read 1 24 > bytes 18000000030018002000000000000000000000002a000000
read 1 24 > EAGAIN
";

#[test]
fn a_group_that_asks_for_threads_is_told_them(rt: HostRuntime) -> Result<(), Fail> {
    assert_plays(&rt, THREADS)
}

// A group keeps the limit with which it was made.
const OWN_LIMITS: &str = "\
mkfile /a > inode 4
mkfile /b > inode 5
init 0 > group 1
limit 1 > ok
init 0 > group 2
limit 16384 > ok
mark 1 1 20 /a > ok
mark 1 1 20 /b > ok
mark 2 1 20 /a > ok
mark 2 1 20 /b > ok
begin 1 41 41 open /a > ok
run 1 > told 1 queued, told 2 queued, done
begin 2 41 41 open /b > ok
run 2 > told 1 queued, told 2 overflow, done
";

#[test]
fn a_group_keeps_the_limit_with_which_it_was_made(rt: HostRuntime) -> Result<(), Fail> {
    assert_plays(&rt, OWN_LIMITS)
}
