// Marks that a change takes away: FAN_MARK_FLUSH, a group that is closed, an object that is gone.
ghost use Rattle.std.specs.Prelude.{◌≡◌};
ghost use Rattle.fan_marks.specs.Selected.{dropping};
ghost use Rattle.fan_marks.specs.Stored.{AreWhole};
ghost use Rattle.fan_marks.specs.Summary.{IsMade, summary_of};

use super::book::MarkBook;
use super::selection::Selection;
use fan_bits::Changed;

impl MarkBook {
    /// Takes out the marks that are selected.
    pub(crate) fn drop_all(&mut self, selection: Selection) -> Changed
        requires { AreWhole self.old.marks }
        ensures made { IsMade self.old.marks self.new.marks (dropping selection) result }
        ensures whole { AreWhole self.new.marks }
    {
        let mut count = 0;
        while let Some(key) = self.first(selection) {
            self.remove(key);
            count += 1;
        }
        summary_of(count)
    }
}

/// The summary of a change that took away, or emptied, so many marks.
pub(crate) fn summary_of(count: u32) -> Changed
    ensures { result ≡ summary_of count }
{
    Changed {
        changed: count > 0,
        retired: count,
    }
}
