// Marks that are found by their object, one after another.
ghost use Rattle.std.specs.Prelude.{◌≡◌, List};
ghost use Rattle.fan_bits.specs.declared.mark.Mark.{Mark};
ghost use Rattle.fan_bits.specs.Marks.{IsMarkList, next_on};
ghost use Rattle.fan_bits.specs.Places.{IsObject};

use super::mark::{Mark, Order};

/// The marks on each object, in the order in which their groups are asked and told.
pub trait Connectors {
    /// The list of marks by which it answers.
    ghost shows: { Self → List Mark → Type 0 };

    /// The mark on the object with the least order after `after`; None if there is none.
    fn next(&mut self, object: u32, after: Order) -> Option<Mark>
        requires object { IsObject object }
        requires shown { (marks : List Mark) × shows self.old marks }
        ensures found { (marks : List Mark) → shows self.old marks
            → result ≡ next_on marks object after.0 }
        ensures same { (marks : List Mark) → shows self.old marks → shows self.new marks };

    /// What it answers by is a valid list of marks.
    ghost is_list: { (it : Self) (marks : List Mark) → shows it marks → IsMarkList marks };
}
