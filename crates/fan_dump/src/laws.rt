// Laws of dumps, each the contract of a function that does nothing.
ghost use Rattle.std.specs.Prelude.{◌≡◌, ℕ, List, Option};
ghost use Rattle.fan_dump.specs.Dump.{Dump};

/// At most one text is printed for some bytes, and they are records up to one place at most.
pub fn one_dump_at_most()
    ensures text { (bytes a b : List ℕ) (p q : Option ℕ) → Dump bytes a p → Dump bytes b q → a ≡ b }
    ensures bad { (bytes a b : List ℕ) (p q : Option ℕ) → Dump bytes a p → Dump bytes b q → p ≡ q }
{}
