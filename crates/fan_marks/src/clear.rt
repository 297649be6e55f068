// A file that is written to: what its marks ignore is forgotten.
ghost use Rattle.std.specs.Prelude.{◌≡◌, Some, find, if◌then◌else◌};
ghost use Rattle.fan_bits.specs.declared.change.Change.TheVariants.{Clear};
ghost use Rattle.fan_bits.specs.Marks.{cleared, standing};
ghost use Rattle.fan_marks.specs.Keys.{has_object_key, object_key, replaced};
ghost use Rattle.fan_marks.specs.Selected.{forgets};
ghost use Rattle.fan_marks.specs.Stored.{AreWhole};
ghost use Rattle.fan_marks.specs.Summary.{IsMade};

use super::book::MarkBook;
use super::drops::summary_of;
use super::keys::ObjectKey;
use fan_bits::{Changed, Mark, Order};

impl MarkBook {
    /// Empties the ignored sets on an object, except for those that survive this.
    pub(crate) fn clear(&mut self, object: u32) -> Changed
        requires { AreWhole self.old.marks }
        ensures made { IsMade self.old.marks self.new.marks (Clear object) result }
        ensures whole { AreWhole self.new.marks }
    {
        let mut after = Order::START;
        let mut count = 0;
        while let Some(mark) = self.next_on(object, after) {
            after = mark.order();
            count += self.clear_mark(mark);
        }
        summary_of(count)
    }

    // Empties the ignored set of a mark, unless it survives this, and takes the mark out if it
    // doesn't stand any more. Returns how many sets were emptied: 0 or 1.
    fn clear_mark(&mut self, mark: Mark) -> u32
        requires whole { AreWhole self.old.marks }
        requires here { find (has_object_key (object_key mark)) self.old.marks ≡ Some mark }
        ensures marks { self.new.marks ≡ replaced self.old.marks (object_key mark)
            (standing (cleared mark.object mark)) }
        ensures count { result ≡ (if forgets mark.object mark then 1 else 0) }
        ensures whole { AreWhole self.new.marks }
    {
        if mark.survives || mark.ignored == 0 {
            return 0;
        }
        let emptied = Mark { ignored: 0, ..mark };
        if emptied.stands() {
            self.update(emptied);
        } else {
            self.remove(ObjectKey::of(&mark));
        }
        1
    }
}
