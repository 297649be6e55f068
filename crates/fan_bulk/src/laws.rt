// Laws of the script, each the contract of a function that does nothing.
ghost use Rattle.std.specs.Prelude.{◌≡◌, ◌+◌, ◌*◌, ◌≤◌, ◌++◌, ◌∷◌, [], ℕ, List, All, Some, length};
ghost use Rattle.std.specs.List.{join_with_byte};
ghost use Rattle.fan_bulk.specs.Lines.{bulk_lines, first_round, round_at};
ghost use Rattle.fan_bulk.specs.Summary.{summary, with_reply};
ghost use Rattle.fan_script.specs.declared.reply.Reply.{Reply};
ghost use Rattle.fan_script.specs.Lines.{Fits, words_of};
ghost use Rattle.fan_script.specs.Reading.{line_at};

/// Each line of the script is one of the grammar (`fit`), so that its words, with a space between each two,
/// are read again as the same line (`again`); and there are 18 lines, and eight for each round at most
/// (`few`). No group answers a descriptor past the number of rounds (`descriptors`), so that its four bytes
/// in a response are always enough.
pub fn script_is_of_lines()
    ensures fit { (seed count : ℕ) → count ≤ 100000 → All Fits (bulk_lines seed count) }
    ensures again { (seed count : ℕ) → count ≤ 100000
        → All (λ line. line_at (join_with_byte 32 (words_of line)) ≡ Some line)
        (bulk_lines seed count) }
    ensures few { (seed count : ℕ) → length (bulk_lines seed count) ≤ 18 + 8 * count }
    ensures descriptors { (seed count : ℕ) → let round = round_at count (first_round seed) in
        (round.first ≤ count) × (round.second ≤ count) }
{}

/// A reply behind others adds to their summary what it tells.
pub fn summaries_add_up()
    ensures { (lines : ℕ) (replies : List Reply) (reply : Reply)
        → summary lines (replies ++ reply ∷ []) ≡ with_reply (summary lines replies) reply }
{}
