// Laws of lines, each the contract of a function that does nothing.
ghost use Rattle.std.specs.Prelude.{◌≡◌, ◌↔◌, ℕ, List, Some};
ghost use Rattle.fan_script.specs.declared.line.Line.{Line};
ghost use Rattle.fan_script.specs.Lines.{LineOf};
ghost use Rattle.fan_script.specs.Reading.{line_at};

/// A list of bytes is at most one line.
pub fn at_most_one_line()
    ensures { (bytes : List ℕ) (a b : Line) → LineOf bytes a → LineOf bytes b → a ≡ b }
{}

/// The reader finds just the line that the bytes spell.
pub fn finds_the_line()
    ensures { (bytes : List ℕ) (line : Line) → (line_at bytes ≡ Some line) ↔ LineOf bytes line }
{}
