// Laws about scripts, each the contract of a function that does nothing.
ghost use Rattle.std.specs.Prelude.{◌≡◌, ◌≤◌, ◌++◌, ℕ, List, Option, Some, All, map};
ghost use Rattle.fan_bulk.specs.Lines.{bulk_lines};
ghost use Rattle.fan_machine.specs.World.{initial_world};
ghost use Rattle.fan_script.specs.declared.line.Line.{Line};
ghost use Rattle.fan_script.specs.Lines.{Fits};
ghost use Rattle.fan_shell.specs.Bulk.{most_rounds, script_text};
ghost use Rattle.fan_shell.specs.Outcome.{Outcome};
ghost use Rattle.fan_shell.specs.Script.{IsValid, Transcript};
ghost use Rattle.fan_shell.specs.Steps.{all_texts, printed_by_steps};

use crate::command::Command;
use crate::status::Status;

/// Each list of bytes has exactly one transcript and one status, which is 0 where no line is a bad one.
pub fn exactly_one_transcript()
    ensures some { (bytes : List ℕ) → (text : List ℕ) × (status : Status)
        × Transcript bytes text status }
    ensures one_text { (bytes a b : List ℕ) (p q : Status)
        → Transcript bytes a p → Transcript bytes b q → a ≡ b }
    ensures one_status { (bytes a b : List ℕ) (p q : Status)
        → Transcript bytes a p → Transcript bytes b q → p ≡ q }
    ensures valid { (bytes text : List ℕ) (status : Status) → Transcript bytes text status
        → IsValid bytes → status ≡ Status.Ok }
{}

/// A command answers its input by one text and one status at most.
pub fn one_outcome_at_most()
    ensures text { (command : Command) (bytes a b : List ℕ) (p q : Status)
        → Outcome command bytes a p → Outcome command bytes b q → a ≡ b }
    ensures status { (command : Command) (bytes a b : List ℕ) (p q : Status)
        → Outcome command bytes a p → Outcome command bytes b q → p ≡ q }
{}

/// A transcript follows the steps of its lines: what it has for some good lines, from the first on,
/// are the replies to their steps, one after another from the initial world on; what stands behind
/// them is printed from the world after all these steps.
pub fn transcripts_follow_the_steps()
    ensures { (bytes text : List ℕ) (status : Status) (transcript : Transcript bytes text status)
        (good : List Line) (later : List (Option Line))
        → transcript.lines ≡ map (λ line. Some line) good ++ later
        → printed_by_steps good later ≡ record { text = text; status = status } }
{}

/// The text of lines of the grammar is a script whose transcript has the replies to their steps, and whose
/// status is 0 (`lines`). So it is with the script of `bulk` (`bulk`).
pub fn lines_are_a_script()
    ensures lines { (lines : List Line) → All Fits lines
        → Transcript (script_text lines) (all_texts initial_world lines) Status.Ok }
    ensures bulk { (seed count : ℕ) → count ≤ most_rounds → let lines = bulk_lines seed count in
        Transcript (script_text lines) (all_texts initial_world lines) Status.Ok }
{}
