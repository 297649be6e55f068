// The flags and the mask with which the marks of a group are changed: fanotify_mark(2).
ghost use Rattle.std.specs.Prelude.{◌≡◌, ◌↔◌, ◌^◌, ◌&&◌, ◌||◌, ℕ, not, IsErr, IsOk, IfErr, IfOk, IfSome, is_some, if◌then◌else◌};
ghost use Rattle.fan_bits.specs.MarkWords.{IsMarkCall, are_mark_flags, flush_flags, is_mask, kind_of, mark_filesystem, mark_flags, mark_flush, mark_mount, mark_words_of, verb_flags, verb_of};
ghost use Rattle.fan_bits.specs.Words.{has_one, has_only, occurs};

use super::errno::Errno;
use super::init::InitWords;
use super::kind::{Kind, Verb};
use super::mark_flags::MarkFlags;
use super::mask::checked_mask;
use bitflags::Flags;

/// What the flags and the mask of a call of fanotify_mark(2) ask for.
#[derive(Clone, Copy, Debug, PartialEq, Eq)]
pub struct MarkWords {
    /// What is done.
    pub verb: Verb,
    /// What the mark is on.
    pub kind: Kind,
    /// FAN_MARK_ONLYDIR: the object must be a directory.
    pub only_dir: bool,
    /// FAN_MARK_IGNORED_MASK: the mask is for the ignored set.
    pub ignored: bool,
    /// FAN_MARK_IGNORED_SURV_MODIFY: the ignored set survives a write to the file.
    pub survives: bool,
    /// The events, with FAN_ONDIR and FAN_EVENT_ON_CHILD; 0 with FAN_MARK_FLUSH.
    pub mask: u32,
}

/// Takes the flags and the mask of a call of fanotify_mark(2) for a group.
///
/// # Errors
///
/// `Einval` if a bit of the flags is no flag of fanotify_mark(2), if not exactly one of
/// FAN_MARK_ADD, FAN_MARK_REMOVE and FAN_MARK_FLUSH is given, if both FAN_MARK_MOUNT and
/// FAN_MARK_FILESYSTEM are, or if a flag other than these two is given with FAN_MARK_FLUSH.
/// Without FAN_MARK_FLUSH also if the mask is 0, has a bit that is no bit of a mask, has a
/// permission event although the group is of class FAN_CLASS_NOTIF, or has an event that is only
/// reported by a handle although the group reports none or the mark is on a mount. Never
/// otherwise.
#[tactic(auto, unfolding(crate::specs::MarkWords::is_mark_call))]
pub fn mark_words(flags: u32, mask: u64, init: InitWords) -> Result<MarkWords, Errno>
    ensures words { IfOk result (λ words. words ≡ mark_words_of flags mask) }
    ensures taken { IsOk result ↔ IsMarkCall flags mask init.bits }
    ensures refused { IsErr result ↔ (¬ IsMarkCall flags mask init.bits) }
    ensures einval { IfErr result (λ why. why ≡ Errno.Einval) }
{
    let Some(given) = checked_flags(flags) else {
        return Err(Errno::Einval);
    };
    let Some(word) = call_mask(mask, given, init) else {
        return Err(Errno::Einval);
    };
    Ok(MarkWords {
        verb: given.verb(),
        kind: given.kind(),
        only_dir: given.has(MarkFlags::ONLYDIR),
        ignored: given.has(MarkFlags::IGNORED_MASK),
        survives: given.has(MarkFlags::IGNORED_SURV_MODIFY),
        mask: word,
    })
}

// The word as a set of flags, if a call may have them.
#[tactic(auto, unfolding(crate::specs::MarkWords::are_mark_flags))]
fn checked_flags(flags: u32) -> Option<MarkFlags>
    ensures given { IfSome result (λ given. given.0 ≡ flags) }
    ensures found { is_some result ≡ are_mark_flags flags }
{
    let given = only_flags(flags)?;
    if given.has_one_verb() && !given.has_both_kinds() && given.may_flush() {
        Some(given)
    } else {
        None
    }
}

// The word as a set of flags, if it has no other bits.
fn only_flags(flags: u32) -> Option<MarkFlags>
    ensures given { IfSome result (λ given. given.0 ≡ flags) }
    ensures found { is_some result ≡ has_only 32 mark_flags flags }
{
    MarkFlags::from_bits(flags)
}

// The mask, if the call may have it. FAN_MARK_FLUSH takes any mask, and counts it as 0.
fn call_mask(mask: u64, given: MarkFlags, init: InitWords) -> Option<u32>
    ensures word { IfSome result (λ word. word ≡ (if occurs given.0 mark_flush then 0 else mask)) }
    ensures found { is_some result
        ≡ (occurs given.0 mark_flush || is_mask mask given.0 init.bits) }
{
    if given.has(MarkFlags::FLUSH) {
        return Some(0);
    }
    checked_mask(mask, given, init)
}

impl MarkFlags {
    // What is done.
    fn verb(self) -> Verb
        ensures { result ≡ verb_of self.0 }
    {
        if self.has(MarkFlags::ADD) {
            Verb::Add
        } else if self.has(MarkFlags::REMOVE) {
            Verb::Remove
        } else {
            Verb::Flush
        }
    }

    // What the mark is on.
    fn kind(self) -> Kind
        ensures { result ≡ kind_of self.0 }
    {
        if self.has(MarkFlags::MOUNT) {
            Kind::Mount
        } else if self.has(MarkFlags::FILESYSTEM) {
            Kind::Filesystem
        } else {
            Kind::Inode
        }
    }

    // Whether exactly one of them says what is done.
    #[tactic(auto, unfolding(crate::specs::Words::has_one))]
    fn has_one_verb(self) -> bool
        ensures { result ≡ has_one verb_flags self.0 }
    {
        let add = self.has(MarkFlags::ADD);
        let remove = self.has(MarkFlags::REMOVE);
        let flush = self.has(MarkFlags::FLUSH);
        u32::from(add) + u32::from(remove) + u32::from(flush) == 1
    }

    // Whether the mark would be both on a mount and on a filesystem.
    fn has_both_kinds(self) -> bool
        ensures { result ≡ (occurs self.0 mark_mount && occurs self.0 mark_filesystem) }
    {
        self.has(MarkFlags::MOUNT) && self.has(MarkFlags::FILESYSTEM)
    }

    // Whether FAN_MARK_FLUSH is not given, or is given with a kind alone.
    fn may_flush(self) -> bool
        ensures { result ≡ (not (occurs self.0 mark_flush) || has_only 32 flush_flags self.0) }
    {
        !self.has(MarkFlags::FLUSH) || self.is_beside_flush()
    }

    // Whether each of them may be given with FAN_MARK_FLUSH.
    fn is_beside_flush(self) -> bool
        ensures { result ≡ has_only 32 flush_flags self.0 }
    {
        MarkFlags::BESIDE_FLUSH.contains(self)
    }

    // Whether a flag is given.
    pub(crate) fn has(self, flag: MarkFlags) -> bool
        ensures { (number : ℕ) → flag.0 ≡ 2 ^ number → result ≡ occurs self.0 number }
    {
        self.contains(flag)
    }
}
