// A table of marks with sections, each of which shows the marks as they stood when it was entered.
ghost use Rattle.std.specs.Prelude.{◌≡◌, ◌<◌, ◌^◌, ◌++◌, ◌∷◌, ◌↔◌, false, true, ◌≢◌, List, [], IfOk, OnErr, OnOk, length};
ghost use Rattle.fan_bits.specs.declared.mark.Mark.{Mark};
ghost use Rattle.fan_bits.specs.Marks.{IsChange, IsMarkList, changed, next_on, retired};
ghost use Rattle.fan_bits.specs.Places.{IsObject};
ghost use Rattle.fan_bits.specs.Refusals.{lacks_mark};
ghost use Rattle.fan_grace.specs.declared.section.Section.{Section};

use fan_bits::{Change, Changed, Mark, Order};
use fan_grace::Section;
use fan_io::NoMemory;

/// A table of marks with sections. A section is entered and left, and shows the same marks from one
/// to the other, whatever changes follow: those that stood when it was entered, if the table is
/// honest.
pub trait Sections: Drop {
    /// Which sections are in.
    ghost inside: { Self → List Section → Type 0 };

    /// The list of marks that a section shows.
    ghost shows: { Self → Section → List Mark → Type 0 };

    /// Whether its sections show its present marks as they stood at their enter.
    ghost honest: { Self → Type 0 };

    /// The present marks of an honest one.
    ghost present: { Self → List Mark → Type 0 };

    /// One is another once a section was entered.
    ghost entered: { Self → Section → Self → Type 0 };

    /// Enters a section. Takes no memory.
    fn enter(&mut self) -> Section
        requires few { (sections : List Section) × inside self.old sections
            × (length sections < 2 ^ 31) }
        ensures inside { (before after : List Section) → inside self.old (before ++ after)
            → inside self.new (before ++ result ∷ after) }
        ensures shown { honest self.old → (marks : List Mark) → present self.old marks
            → shows self.new result marks }
        ensures stays { (before after : List Section) (section : Section) (marks : List Mark)
            → inside self.old (before ++ section ∷ after) → shows self.old section marks
            → shows self.new section marks }
        ensures present { honest self.old → (marks : List Mark) → present self.old marks
            → present self.new marks }
        ensures honest { honest self.old ↔ honest self.new }
        ensures entered { entered self.old result self.new };

    /// Leaves a section. Takes no memory.
    fn leave(&mut self, section: Section)
        requires there { (before after : List Section)
            × inside self.old (before ++ section ∷ after) }
        ensures inside { (before after : List Section)
            → inside self.old (before ++ section ∷ after) → inside self.new (before ++ after) }
        ensures stays { (before after : List Section)
            → inside self.old (before ++ section ∷ after)
            → (front back : List Section) (other : Section) (marks : List Mark)
            → before ++ after ≡ front ++ other ∷ back → shows self.old other marks
            → shows self.new other marks }
        ensures present { honest self.old → (marks : List Mark) → present self.old marks
            → present self.new marks }
        ensures honest { honest self.old ↔ honest self.new }
        ensures back { (before : Self) → entered before section self.old → self.new ≡ before };

    /// The mark on an object with the least order after `after`, among those that a section shows;
    /// None if there is none. Takes no memory.
    fn next(&mut self, section: &Section, object: u32, after: Order) -> Option<Mark>
        requires object { IsObject object }
        requires there { (before after : List Section)
            × inside self.old (before ++ section.now ∷ after) }
        ensures found { (marks : List Mark) → shows self.old section.now marks
            → result ≡ next_on marks object after.0 }
        ensures same { self.new ≡ self.old };

    /// Makes a change of the present marks. It takes bits from no mark that isn't there.
    ///
    /// # Errors
    /// `NoMemory` if there was none. Nothing changed then.
    fn change(&mut self, change: &Change) -> Result<Changed, NoMemory>
        requires possible { honest self.old → (marks : List Mark) × present self.old marks
            × IsChange marks change.now × (lacks_mark marks change.now ≡ false) }
        ensures ok { honest self.old → (marks : List Mark) → present self.old marks
            → OnOk result (present self.new (changed marks change.now)) }
        ensures changed { honest self.old → (marks : List Mark) → present self.old marks
            → IfOk result (λ done. (done.changed ≡ true) ↔ (changed marks change.now ≢ marks)) }
        ensures retired { honest self.old → (marks : List Mark) → present self.old marks
            → IfOk result (λ done. done.retired ≡ length (retired marks change.now)) }
        ensures inside { (sections : List Section) → inside self.old sections
            → inside self.new sections }
        ensures stays { (before after : List Section) (section : Section) (marks : List Mark)
            → inside self.old (before ++ section ∷ after) → shows self.old section marks
            → shows self.new section marks }
        ensures honest { honest self.old ↔ honest self.new }
        ensures err { OnErr result (self.new ≡ self.old) };

    /// What a section shows is a valid list of marks.
    ghost is_list: { (it : Self) (section : Section) (marks : List Mark) → shows it section marks
        → IsMarkList marks };

    /// Each section that is in shows some list.
    ghost shows_some: { (it : Self) (before after : List Section) (section : Section)
        → inside it (before ++ section ∷ after) → (marks : List Mark) × shows it section marks };

    /// Present marks are a valid list of marks.
    ghost present_list: { (it : Self) (marks : List Mark) → honest it → present it marks
        → IsMarkList marks };
}
