// The mask of a call of fanotify_mark(2): which bits it may have.
ghost use Rattle.std.specs.Prelude.{◌≡◌, ◌&&◌, ◌||◌, not, IfSome, is_some};
ghost use Rattle.fan_bits.specs.MarkWords.{handle_events, is_mask, is_notif, mark_mount, mask_bits, perm_events, self_events};
ghost use Rattle.fan_bits.specs.Words.{class_of, has_any, has_handles, has_only, occurs};

use super::class::Class;
use super::init::InitWords;
use super::mark_flags::{MarkFlags, MaskBits};
use bitflags::Flags;

// The mask as a word of 32 bits, if a call with these flags may have it.
#[tactic(auto, unfolding(crate::specs::MarkWords::is_mask))]
pub(crate) fn checked_mask(mask: u64, given: MarkFlags, init: InitWords) -> Option<u32>
    ensures word { IfSome result (λ word. word ≡ mask) }
    ensures found { is_some result ≡ is_mask mask given.0 init.bits }
{
    let bits = only_bits(mask)?;
    if mask == 0 || is_unasked(bits, init) || lacks_handles(bits, given, init) {
        return None;
    }
    Some(mask as u32)
}

// The mask as a set of named bits, if it has no others.
fn only_bits(mask: u64) -> Option<MaskBits>
    ensures given { IfSome result (λ bits. bits.0 ≡ mask) }
    ensures found { is_some result ≡ has_only 64 mask_bits mask }
{
    MaskBits::from_bits(mask)
}

// Whether the mask has a permission event although the group is never asked.
fn is_unasked(bits: MaskBits, init: InitWords) -> bool
    ensures { result ≡ (has_any perm_events bits.0 && is_notif (class_of init.bits)) }
{
    has_perm_event(bits) && matches!(init.class(), Class::Notif)
}

// Whether the mask has an event that is reported by a handle although none can be.
fn lacks_handles(bits: MaskBits, given: MarkFlags, init: InitWords) -> bool
    ensures { result ≡ (has_any handle_events bits.0
        && (not (has_handles init.bits) || occurs given.0 mark_mount)) }
{
    has_handle_event(bits) && (!init.has_handles() || given.has(MarkFlags::MOUNT))
}

// Whether the mask has a permission event.
fn has_perm_event(bits: MaskBits) -> bool
    ensures { result ≡ has_any perm_events bits.0 }
{
    bits.intersects(MaskBits::PERM_EVENTS)
}

// Whether the mask has an event that is only reported by a handle.
fn has_handle_event(bits: MaskBits) -> bool
    ensures { result ≡ has_any handle_events bits.0 }
{
    bits.intersects(MaskBits::HANDLE_EVENTS)
}

/// Whether some events have one of a file or directory that was itself removed or renamed:
/// FAN_DELETE_SELF or FAN_MOVE_SELF of fanotify_mark(2).
pub fn has_self_event(events: u32) -> bool
    ensures { result ≡ has_any self_events events }
{
    MaskBits(u64::from(events)).intersects(MaskBits::SELF_EVENTS)
}
