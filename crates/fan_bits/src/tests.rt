// Flag words of groups from fanotify_init(2), with what is made of them; and outcomes.
use super::*;

#[test]
fn words_are_taken_or_refused(rt: HostRuntime) {
    let cases = [
        (0x0, Some((Class::Notif, 2, false, false))),
        (0x4, Some((Class::Content, 1, false, false))),
        (0x8, Some((Class::PreContent, 0, false, false))),
        (0x37, Some((Class::Content, 1, true, false))),
        (0x103, Some((Class::Notif, 2, false, false))),
        (0xf33, Some((Class::Notif, 2, true, true))),
        (0x200, Some((Class::Notif, 2, false, true))),
        (0xc00, Some((Class::Notif, 2, false, true))),
        (0xc, None),
        (0x40, None),
        (0x1000, None),
        (0x8000_0000, None),
        (0x204, None),
        (0x408, None),
        (0x800, None),
        (0xa00, None),
    ];
    for (flags, wanted) in cases {
        let found = match init_words(flags) {
            Ok(words) => Some((
                words.class(),
                words.class().rank(),
                words.unlimited_queue(),
                words.has_handles(),
            )),
            Err(_) => None,
        };
        assert_eq!(rt; found, wanted, "at {flags:x}");
    }
}

#[test]
fn flags_are_told_apart(rt: HostRuntime) {
    let cases = [
        (0x10, (true, false, false, false, false)),
        (0x20, (false, true, false, false, false)),
        (0x100, (false, false, true, false, false)),
        (0x200, (false, false, false, true, false)),
        (0x400, (false, false, false, false, true)),
    ];
    for (flags, wanted) in cases {
        let Ok(words) = init_words(flags) else {
            continue;
        };
        let found = (
            words.unlimited_queue(),
            words.unlimited_marks(),
            words.reports_tid(),
            words.reports_fid(),
            words.reports_dir_fid(),
        );
        assert_eq!(rt; found, wanted, "at {flags:x}");
    }
}

#[test]
fn outcomes_end_accesses_and_runs(rt: HostRuntime) {
    let cases = [
        (StepOutcome::Asked(1), false, false),
        (StepOutcome::Blocked(1), false, true),
        (StepOutcome::Allowed(1), false, false),
        (StepOutcome::Denied(1), true, true),
        (StepOutcome::Closed(1), false, false),
        (StepOutcome::Full(1), false, false),
        (StepOutcome::Queued(1), false, false),
        (StepOutcome::Merged(1), false, false),
        (StepOutcome::Overflow(1), false, false),
        (StepOutcome::Done, true, true),
    ];
    for (outcome, access, run) in cases {
        assert_eq!(rt; outcome.ends_access(), access, "at {outcome:?}");
        assert_eq!(rt; outcome.ends_run(), run, "at {outcome:?}");
    }
}
