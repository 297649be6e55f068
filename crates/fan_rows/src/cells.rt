// Words that are read one by one.
ghost use Rattle.std.specs.Prelude.{◌≡◌, ℕ, Option, Some, IsSome};
ghost use Rattle.fan_rows.specs.Rows.{Rows};

/// Words at places, of which each row has four: word i of row r at 4 r + i.
pub trait Cells {
    /// Which words stand at which places.
    ghost words: { Self → ℕ → Option ℕ };

    /// The rows that can be taken, those that were given out, and those that were given up. Who
    /// only reads has three empty lists.
    ghost rows: { Self → Rows };

    /// The word at a place.
    fn word(&mut self, at: u64) -> u64
        requires { IsSome (words self.old at) }
        ensures found { words self.old at ≡ Some result }
        ensures words { words self.new ≡ words self.old }
        ensures rows { rows self.new ≡ rows self.old };
}
