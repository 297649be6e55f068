// What is printed for a reply.
ghost use Rattle.std.specs.Prelude.{◌≡◌, ◌++◌, OnOk, codes};
ghost use Rattle.std.specs.Fmt.{decimal};
ghost use Rattle.fan_print.specs.Texts.{errno_text, later_text, outcome_text, outcomes_text, reply_text};

use super::texts::{print_decimal, print_text};
use fan_bits::Errno;
use fan_io::NoMemory;
use fan_script::{Reply, StepOutcome};
use fan_text::write_bytes;

// The name of a refusal.
#[tactic(auto, unfolding(crate::specs::Texts::errno_text))]
fn errno_name(refusal: Errno) -> &'static str
    ensures { result.now ≡ errno_text refusal }
{
    match refusal {
        Errno::Ebadf => "EBADF",
        Errno::Einval => "EINVAL",
        Errno::Enoent => "ENOENT",
        Errno::Enotdir => "ENOTDIR",
        Errno::Eisdir => "EISDIR",
        Errno::Eexist => "EEXIST",
        Errno::Enotempty => "ENOTEMPTY",
        Errno::Ebusy => "EBUSY",
        Errno::Exdev => "EXDEV",
        Errno::Enospc => "ENOSPC",
        Errno::Emfile => "EMFILE",
        Errno::Eagain => "EAGAIN",
        Errno::Esrch => "ESRCH",
        Errno::Eacces => "EACCES",
    }
}

// Puts a word and a number at the end.
#[tactic(auto, using(std::proofs::Common::append_assoc))]
fn print_named(out: &mut Vec<u8>, name: &str, number: u64) -> Result<(), NoMemory>
    ensures { OnOk result (out.new.items ≡ out.old.items ++ (name.now ++ decimal number)) }
{
    print_text(out, name)?;
    print_decimal(out, number)
}

// Puts how a group was told at the end.
#[tactic(auto, using(std::proofs::Common::append_assoc))]
fn print_told(out: &mut Vec<u8>, group: u32, how: &str) -> Result<(), NoMemory>
    ensures { OnOk result (out.new.items
        ≡ out.old.items ++ (codes "told " ++ decimal group ++ how.now)) }
{
    print_text(out, "told ")?;
    print_decimal(out, group.into())?;
    print_text(out, how)
}

// Puts what a single step did at the end.
#[tactic(auto, using(std::proofs::Common::append_assoc), unfolding(crate::specs::Texts::outcome_text))]
fn print_outcome(out: &mut Vec<u8>, outcome: StepOutcome) -> Result<(), NoMemory>
    ensures { OnOk result (out.new.items ≡ out.old.items ++ outcome_text outcome) }
{
    match outcome {
        StepOutcome::Asked(group) => print_named(out, "asked ", group.into()),
        StepOutcome::Blocked(group) => print_named(out, "blocked ", group.into()),
        StepOutcome::Allowed(group) => print_named(out, "allowed ", group.into()),
        StepOutcome::Denied(group) => print_named(out, "denied ", group.into()),
        StepOutcome::Closed(group) => print_named(out, "closed ", group.into()),
        StepOutcome::Full(group) => print_named(out, "full ", group.into()),
        StepOutcome::Queued(group) => print_told(out, group, " queued"),
        StepOutcome::Merged(group) => print_told(out, group, " merged"),
        StepOutcome::Overflow(group) => print_told(out, group, " overflow"),
        StepOutcome::Done => print_text(out, "done"),
    }
}

/// Puts what single steps did at the end, with a comma between each two.
#[tactic(auto, using(std::proofs::Common::append_assoc))]
pub(crate) fn print_outcomes(out: &mut Vec<u8>, outcomes: &[StepOutcome]) -> Result<(), NoMemory>
    ensures { OnOk result (out.new.items ≡ out.old.items ++ outcomes_text outcomes.now) }
{
    match outcomes {
        [] => Ok(()),
        [first, more @ ..] => {
            print_outcome(out, *first)?;
            print_later(out, more)
        }
    }
}

// Puts what further single steps did at the end, each behind a comma.
#[tactic(auto, using(std::proofs::Common::append_assoc))]
fn print_later(out: &mut Vec<u8>, outcomes: &[StepOutcome]) -> Result<(), NoMemory>
    ensures { OnOk result (out.new.items ≡ out.old.items ++ later_text outcomes.now) }
{
    for outcome in outcomes {
        print_text(out, ", ")?;
        print_outcome(out, *outcome)?;
    }
    Ok(())
}

/// Puts the text of a reply at the end, without an LF: `ok`, what was made and its number, the bytes in
/// hexadecimal digits, the name of the errno, or what the single steps did. docs/FORMATS.md has them.
///
/// # Errors
/// `NoMemory` if no memory is found; a front of the text may then stand at the end.
#[tactic(auto, using(std::proofs::Common::append_assoc), unfolding(crate::specs::Texts::reply_text))]
pub fn print_reply(out: &mut Vec<u8>, reply: &Reply) -> Result<(), NoMemory>
    ensures { OnOk result (out.new.items ≡ out.old.items ++ reply_text reply.now) }
{
    match reply {
        Reply::Done => print_text(out, "ok"),
        Reply::Inode(object) => print_named(out, "inode ", (*object).into()),
        Reply::Fs(fs) => print_named(out, "fs ", (*fs).into()),
        Reply::Mount(mount) => print_named(out, "mount ", (*mount).into()),
        Reply::Group(group) => print_named(out, "group ", (*group).into()),
        Reply::Bytes(bytes) => {
            print_text(out, "bytes ")?;
            write_bytes(out, bytes.as_slice())
        }
        Reply::Refused(refusal) => print_text(out, errno_name(*refusal)),
        Reply::Reclaimed(marks) => print_named(out, "reclaimed ", *marks),
        Reply::Out(outcomes) => print_outcomes(out, outcomes.as_slice()),
    }
}
