// Changes that take away marks, made on one object after the other.
ghost use Rattle.std.specs.Prelude.{◌≡◌, List, IfOk, OnErr};
ghost use Rattle.fan_bits.specs.declared.mark.Mark.{Mark};
ghost use Rattle.fan_bits.specs.Marks.{changed};
ghost use Rattle.fan_rows.specs.Trees.{Tree};
ghost use Rattle.fan_grace.specs.Stored.{CanMakeEach, IsGrown, IsMade, objects_of};

use super::made::Made;
use super::stored::StoredRows;
use fan_bits::Change;
use fan_io::NoMemory;

impl StoredRows {
    /// Makes a change on each of some objects, which have all marks that it takes away.
    ///
    /// # Errors
    /// `NoMemory` if no memory was found for the rows that it takes; nothing is changed then.
    pub(crate) fn change_each(
        &mut self,
        root: u64,
        change: &Change,
        places: &[(u64, u32)],
    ) -> Result<Made, NoMemory>
        requires { (marks : List Mark) × (tree : Tree)
            × CanMakeEach self.old root marks tree change.now (objects_of places.now) }
        ensures made { (marks : List Mark) (tree : Tree)
            → CanMakeEach self.old root marks tree change.now (objects_of places.now)
            → IfOk result (IsMade self.old self.new root marks (changed marks change.now)) }
        ensures err { OnErr result (self.new ≡ self.old) }
    {
        let extent = self.extent();
        let made = self.change_in_turn(root, change, places);
        if made.is_err() {
            self.cut_back(extent);
        }
        made
    }

    // Makes a change on one object after the other. Without memory some may be made.
    fn change_in_turn(
        &mut self,
        root: u64,
        change: &Change,
        places: &[(u64, u32)],
    ) -> Result<Made, NoMemory>
        requires { (marks : List Mark) × (tree : Tree)
            × CanMakeEach self.old root marks tree change.now (objects_of places.now) }
        ensures made { (marks : List Mark) (tree : Tree)
            → CanMakeEach self.old root marks tree change.now (objects_of places.now)
            → IfOk result (IsMade self.old self.new root marks (changed marks change.now)) }
        ensures grown { IsGrown self.old self.new }
    {
        let mut made = Made { root, marks: 0 };
        for (_, object) in places {
            let next = self.change_on(made.root, change, *object)?;
            made = Made {
                root: next.root,
                marks: made.marks + next.marks,
            };
        }
        Ok(made)
    }
}
