// Rows that are taken and written.
ghost use Rattle.std.specs.Prelude.{◌≡◌, ◌<◌, ◌∷◌, [], length, slice_index};
ghost use Rattle.fan_bits.specs.Marks.{IsMark};
ghost use Rattle.fan_rows.specs.Rows.{MarkAt, RowAt};
ghost use Rattle.fan_build.specs.Steps.{Grown};

use super::new_rows::NewRows;
use fan_bits::Mark;
use fan_rows::MarkRow;

/// Takes a row and writes its words.
pub(crate) fn write_row<N: NewRows>(rows: &mut N, words: [u64; 4]) -> u64
    requires { 0 < length (N.rows rows.old).free }
    ensures grown { Grown (N.words rows.old) (N.words rows.new) (N.rows rows.old) (N.rows rows.new)
        (result ∷ []) [] }
    ensures at { RowAt (N.words rows.new) result (slice_index words 0) (slice_index words 1)
        (slice_index words 2) (slice_index words 3) }
{
    let row = rows.fresh();
    rows.write(row, words);
    row
}

/// Takes a row and writes a mark with the row of the next one.
pub(crate) fn write_mark<N: NewRows>(rows: &mut N, mark: &Mark, next: u64) -> u64
    requires room { 0 < length (N.rows rows.old).free }
    requires mark { IsMark mark.now }
    ensures grown { Grown (N.words rows.old) (N.words rows.new) (N.rows rows.old) (N.rows rows.new)
        (result ∷ []) [] }
    ensures at { MarkAt (N.words rows.new) result next mark.now }
{
    let words = MarkRow::of(mark);
    write_row(rows, [next, words.sets, words.object, words.group])
}
