// The words of a table, to read.
ghost use Rattle.std.specs.Prelude.{◌≡◌, [], slice_get};

use fan_rows::Cells;

/// The words of a table, as long as they are borrowed.
#[derive(Clone, Copy, Debug)]
pub struct TableCells<'a> {
    words: &'a [u64],
}

impl<'a> TableCells<'a> {
    /// Words that stand in a slice.
    pub(crate) fn new(words: &'a [u64]) -> TableCells<'a>
        ensures { result.words.now ≡ words.now }
    {
        TableCells { words }
    }
}

impl<'a> Cells for TableCells<'a> {
    ghost words = { λ it place. slice_get it.words.now place };

    ghost rows = { λ it. record { free = []; given = []; retired = [] } };

    fn word(&mut self, at: u64) -> u64 {
        self.words[at as usize]
    }
}
