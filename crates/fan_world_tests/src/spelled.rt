// Changes and marks as words.
use fan_bits::{Change, Changed, Class, Kind, Mark, MarkWords, Verb};
use fan_io::NoMemory;

// The change that a word names.
pub(crate) fn change_of(word: &str) -> Change {
    let mut parts = word.split('.');
    let name = parts.next().unwrap_or("");
    let first = number(parts.next());
    let second = number(parts.next());
    let third = number(parts.next());
    let bits = number(parts.next());
    match name {
        "f" => Change::Flush {
            group: first,
            kind: kind_of(second),
        },
        "c" => Change::Clear { object: first },
        "g" => Change::DropGroup { group: first },
        "o" => Change::DropObject { object: first },
        _ => Change::Put {
            group: first,
            class: class_of(second),
            words: words_of(name, bits),
            object: third,
        },
    }
}

// A number of a word, or 0 where there is none.
fn number(part: Option<&str>) -> u32 {
    match part {
        Some(text) => text.parse::<u32>().unwrap_or(0),
        None => 0,
    }
}

fn class_of(rank: u32) -> Class {
    match rank {
        0 => Class::PreContent,
        1 => Class::Content,
        _ => Class::Notif,
    }
}

fn kind_of(number: u32) -> Kind {
    match number {
        0 => Kind::Inode,
        1 => Kind::Mount,
        _ => Kind::Filesystem,
    }
}

fn words_of(name: &str, mask: u32) -> MarkWords {
    MarkWords {
        verb: match name {
            "r" | "j" => Verb::Remove,
            _ => Verb::Add,
        },
        kind: match name {
            "m" => Kind::Mount,
            _ => Kind::Inode,
        },
        only_dir: false,
        ignored: matches!(name, "i" | "s" | "j"),
        survives: matches!(name, "s"),
        mask,
    }
}

// Shows whether a change made another list, and how many marks are gone.
pub(crate) fn show_done(done: Changed, out: &mut String) -> Result<(), NoMemory> {
    out.push_str(if done.changed { "1." } else { "0." })?;
    show_number(done.retired, out)?;
    Ok(out.push(' ')?)
}

pub(crate) fn show_mark(mark: Mark, out: &mut String) -> Result<(), NoMemory> {
    out.push(' ')?;
    show_number(mark.object, out)?;
    out.push(':')?;
    show_number(mark.group, out)?;
    out.push('.')?;
    show_number(mark.mask, out)?;
    out.push('.')?;
    show_number(mark.ignored, out)?;
    if mark.survives {
        out.push('s')?;
    }
    Ok(())
}

fn show_number(number: u32, out: &mut String) -> Result<(), NoMemory> {
    match write!(out, "{number}") {
        Ok(()) => Ok(()),
        Err(_) => Err(NoMemory),
    }
}
