// The flag word with which a group is made: fanotify_init(2).
ghost use Rattle.std.specs.Prelude.{◌≡◌, ◌↔◌, ◌^◌, ℕ, IsErr, IsOk, IfErr, IfOk, IfSome, is_some};
ghost use Rattle.fan_bits.specs.Words.{IsInitFlags, is_init_flags, has_only, init_flags, agree, occurs, class_of, has_handles, unlimited_queue, unlimited_marks, report_tid, report_fid, report_dir_fid, report_name};

use super::class::Class;
use super::errno::Errno;
use super::flags::InitFlags;
use bitflags::Flags;

/// A flag word with which a group can be made: fanotify_init(2).
#[derive(Clone, Copy, Debug, PartialEq, Eq)]
pub struct InitWords {
    /// The word as it was given.
    pub bits: u32,
    pub ghost valid: { IsInitFlags bits },
}

/// Takes a flag word for a group.
///
/// # Errors
///
/// `Einval` if a bit is no flag of fanotify_init(2), if both class flags are given, if a class flag
/// is given with FAN_REPORT_FID or FAN_REPORT_DIR_FID, or if FAN_REPORT_NAME is given without
/// FAN_REPORT_DIR_FID; never otherwise.
pub fn init_words(flags: u32) -> Result<InitWords, Errno>
    ensures word { IfOk result (λ words. words.bits ≡ flags) }
    ensures taken { IsOk result ↔ IsInitFlags flags }
    ensures refused { IsErr result ↔ (¬ IsInitFlags flags) }
    ensures einval { IfErr result (λ why. why ≡ Errno.Einval) }
{
    if is_valid(flags) {
        Ok(InitWords { bits: flags })
    } else {
        Err(Errno::Einval)
    }
}

// Whether a group can be made with the word.
fn is_valid(flags: u32) -> bool
    ensures { result ≡ is_init_flags flags }
{
    match only_flags(flags) {
        Some(given) => agree(given),
        None => false,
    }
}

// The word as a set of flags, if it has no other bits.
fn only_flags(flags: u32) -> Option<InitFlags>
    ensures given { IfSome result (λ given. given.0 ≡ flags) }
    ensures found { is_some result ≡ has_only 32 init_flags flags }
{
    InitFlags::from_bits(flags)
}

// Whether the flags may be given together.
fn agree(given: InitFlags) -> bool
    ensures { result ≡ agree given.0 }
{
    let content = has(given, InitFlags::CLASS_CONTENT);
    let pre_content = has(given, InitFlags::CLASS_PRE_CONTENT);
    let fid = has(given, InitFlags::REPORT_FID);
    let dir_fid = has(given, InitFlags::REPORT_DIR_FID);
    let name = has(given, InitFlags::REPORT_NAME);
    if content && pre_content {
        return false;
    }
    if (fid || dir_fid) && (content || pre_content) {
        return false;
    }
    !name || dir_fid
}

// Whether a flag is given.
fn has(given: InitFlags, flag: InitFlags) -> bool
    ensures { (number : ℕ) → flag.0 ≡ 2 ^ number → result ≡ occurs given.0 number }
{
    given.contains(flag)
}

impl InitWords {
    /// The class of the group.
    pub fn class(self) -> Class
        ensures { result ≡ class_of self.bits }
    {
        if self.has(InitFlags::CLASS_PRE_CONTENT) {
            Class::PreContent
        } else if self.has(InitFlags::CLASS_CONTENT) {
            Class::Content
        } else {
            Class::Notif
        }
    }

    /// Whether FAN_UNLIMITED_QUEUE is given: the queue of the group has no limit.
    pub fn unlimited_queue(self) -> bool
        ensures { result ≡ occurs self.bits unlimited_queue }
    {
        self.has(InitFlags::UNLIMITED_QUEUE)
    }

    /// Whether FAN_UNLIMITED_MARKS is given: the group may have any number of marks.
    pub fn unlimited_marks(self) -> bool
        ensures { result ≡ occurs self.bits unlimited_marks }
    {
        self.has(InitFlags::UNLIMITED_MARKS)
    }

    /// Whether FAN_REPORT_TID is given: events report a thread instead of its process.
    pub fn reports_tid(self) -> bool
        ensures { result ≡ occurs self.bits report_tid }
    {
        self.has(InitFlags::REPORT_TID)
    }

    /// Whether FAN_REPORT_FID is given: events report the handle of their object.
    pub fn reports_fid(self) -> bool
        ensures { result ≡ occurs self.bits report_fid }
    {
        self.has(InitFlags::REPORT_FID)
    }

    /// Whether FAN_REPORT_DIR_FID is given: events report the handle of a directory.
    pub fn reports_dir_fid(self) -> bool
        ensures { result ≡ occurs self.bits report_dir_fid }
    {
        self.has(InitFlags::REPORT_DIR_FID)
    }

    /// Whether FAN_REPORT_NAME is given: beside the handle of a directory, events report the name of
    /// an entry in it.
    pub fn reports_name(self) -> bool
        ensures { result ≡ occurs self.bits report_name }
    {
        self.has(InitFlags::REPORT_NAME)
    }

    /// Whether events report handles instead of descriptors: FAN_REPORT_FID or FAN_REPORT_DIR_FID is
    /// given.
    pub fn has_handles(self) -> bool
        ensures { result ≡ has_handles self.bits }
    {
        let fid = self.reports_fid();
        let dir_fid = self.reports_dir_fid();
        fid || dir_fid
    }

    // Whether the flag is given.
    fn has(self, flag: InitFlags) -> bool
        ensures { (number : ℕ) → flag.0 ≡ 2 ^ number → result ≡ occurs self.bits number }
    {
        has(InitFlags::from_bits_retain(self.bits), flag)
    }
}
