// Responses in their eight bytes, and what waits for one: fanotify(7).
ghost use Rattle.std.specs.Prelude.{◌≡◌, nat_lt, length, find, None, IfNone, OnSome, if◌then◌else◌};
ghost use Rattle.fan_lists.specs.First.{without_first};
ghost use Rattle.fan_listener.specs.Responses.{verdict, fd_in, value_in, is_under};

use super::answers::{Pending, Verdict};
use super::asked::AskedEvents;

// FAN_ALLOW.
const ALLOW: u32 = 1;

// FAN_DENY.
const DENY: u32 = 2;

// The verdict that a response's value stands for.
#[tactic(auto, unfolding(crate::specs::Responses::verdict))]
pub(crate) fn verdict(value: u32) -> Option<Verdict>
    ensures { result ≡ verdict value }
{
    match value {
        ALLOW => Some(Verdict::Allow),
        DENY => Some(Verdict::Deny),
        _ => None,
    }
}

// The descriptor in a response: its first four bytes.
pub(crate) fn fd_field(bytes: &[u8]) -> u32
    requires { length bytes.now ≡ 8 }
    ensures { result ≡ fd_in bytes.now }
{
    u32::from_le_bytes([bytes[0], bytes[1], bytes[2], bytes[3]])
}

// The value in a response: its last four bytes.
pub(crate) fn value_field(bytes: &[u8]) -> u32
    requires { length bytes.now ≡ 8 }
    ensures { result ≡ value_in bytes.now }
{
    u32::from_le_bytes([bytes[4], bytes[5], bytes[6], bytes[7]])
}

// Takes out the event that waits under a descriptor. Those whose descriptor is not below `next_fd` were
// not read yet, and don't wait.
pub(crate) fn take_waiting(asked: &mut AskedEvents, next_fd: u32, fd: u32) -> Option<Pending>
    ensures found { result
        ≡ (if nat_lt fd next_fd then find (is_under fd) asked.old.events else None) }
    ensures taken { OnSome result
        (asked.new.events ≡ without_first (is_under fd) asked.old.events) }
    ensures none { IfNone result (asked.new.events ≡ asked.old.events) }
{
    if fd >= next_fd {
        return None;
    }
    asked.remove(fd)
}
