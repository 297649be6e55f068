// The commands, and the words that name them.
ghost use Rattle.std.specs.Prelude.{◌≡◌, IfNone, IfSome};
ghost use Rattle.fan_shell.specs.Command.{IsForm, Names, NamesBulk, NamesNoBulk, NamesNoInput, name};

use fan_text::read_decimal;

/// A command that answers its input by a text and a status.
#[derive(Clone, Copy, Debug, PartialEq, Eq)]
pub enum Command {
    /// A script is answered by its transcript.
    Script,
    /// Records are answered by lines that tell their parts.
    Dump,
}

// The command that has this name.
#[tactic(auto, unfolding(crate::specs::Command::name))]
fn named(word: &str) -> Option<Command>
    ensures found { IfSome result (λ command. word.now ≡ name command) }
    ensures none { IfNone result ((command : Command) → word.now ≡ name command → ⊥) }
{
    if word == "script" {
        return Some(Command::Script);
    }
    if word == "dump" {
        return Some(Command::Dump);
    }
    None
}

// The command that reads an input and that the words name.
fn input_of(words: &[String]) -> Option<Command>
    ensures found { IfSome result (λ command. Names words.now command) }
    ensures none { IfNone result (NamesNoInput words.now) }
{
    match words {
        [word] => named(word.as_str()),
        _ => None,
    }
}

// The numbers of `bulk`, if the words are its.
fn bulk_of(words: &[String]) -> Option<(u64, u64)>
    ensures found { IfSome result (λ numbers. NamesBulk words.now numbers.0 numbers.1) }
    ensures none { IfNone result (NamesNoBulk words.now) }
{
    match words {
        [word, seed, count] => {
            if word.as_str() != "bulk" {
                return None;
            }
            let seed = read_decimal(seed.as_str().as_bytes())?;
            let count = read_decimal(count.as_str().as_bytes())?;
            Some((seed, count))
        }
        _ => None,
    }
}

/// What the words of the command line ask for.
#[derive(Clone, Copy, Debug, PartialEq, Eq)]
pub(crate) enum Form {
    /// A command that answers its input.
    Input(Command),
    /// `bulk`, with its seed and its number of rounds.
    Bulk(u64, u64),
    /// No command.
    Other,
}

/// The form that the words are of.
#[tactic(auto, using(crate::proofs::CommandLemmas::no_bulk))]
pub(crate) fn form_of(words: &[String]) -> Form
    ensures { IsForm words.now result }
{
    if let Some(command) = input_of(words) {
        return Form::Input(command);
    }
    match bulk_of(words) {
        Some((seed, count)) => Form::Bulk(seed, count),
        None => Form::Other,
    }
}
