// Rows that can be taken, written and given up.
ghost use Rattle.std.specs.Prelude.{◌≡◌, ◌≢◌, ◌<◌, ◌+◌, ◌*◌, ◌/◌, ◌^◌, ◌++◌, ◌∷◌, [], ℕ, length, slice_get, IsSome};
ghost use Rattle.fan_rows.specs.Rows.{times};

use fan_rows::Cells;

/// Words of which rows can be written: free rows are taken, written, and reached from a new root;
/// rows that no new root reaches are given up.
pub trait NewRows: Cells {
    /// Takes a free row and gives it out. No word changes.
    fn fresh(&mut self) -> u64
        requires { 0 < length (Self.rows self.old).free }
        ensures above { 0 < result }
        ensures below { result < 2 ^ 62 }
        ensures taken { (row : ℕ) → times row (Self.rows self.old).free
            ≡ times row (Self.rows self.new).free + times row (result ∷ []) }
        ensures fewer { length (Self.rows self.old).free ≡ length (Self.rows self.new).free + 1 }
        ensures given { (Self.rows self.new).given ≡ (Self.rows self.old).given ++ result ∷ [] }
        ensures retired { (Self.rows self.new).retired ≡ (Self.rows self.old).retired }
        ensures words { Self.words self.new ≡ Self.words self.old };

    /// Writes the four words of a row that was given out, and no other word.
    fn write(&mut self, row: u64, words: [u64; 4])
        requires { 0 < times row (Self.rows self.old).given }
        ensures set { (place : ℕ) → place < 4
            → Self.words self.new (4 * row + place) ≡ slice_get words place }
        ensures others { (at : ℕ) → at / 4 ≢ row → Self.words self.new at ≡ Self.words self.old at }
        ensures rows { Self.rows self.new ≡ Self.rows self.old };

    /// Gives up a row that has words and was not given up before. No word changes, and the row is not
    /// free by this.
    fn retire(&mut self, row: u64)
        requires there { IsSome (Self.words self.old (4 * row)) }
        requires once { times row (Self.rows self.old).retired ≡ 0 }
        ensures free { (Self.rows self.new).free ≡ (Self.rows self.old).free }
        ensures given { (Self.rows self.new).given ≡ (Self.rows self.old).given }
        ensures retired { (Self.rows self.new).retired ≡ (Self.rows self.old).retired ++ row ∷ [] }
        ensures words { Self.words self.new ≡ Self.words self.old };
}
