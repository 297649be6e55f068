// Connectors that stand in rows.
ghost use Rattle.std.specs.Prelude.{◌≡◌, List};
ghost use Rattle.fan_bits.specs.declared.mark.Mark.{Mark};
ghost use Rattle.fan_bits.specs.Marks.{IsMarkList, next_on};
ghost use Rattle.fan_bits.specs.Places.{IsObject};
ghost use Rattle.fan_rows.specs.Trees.{Pictures};

use super::cells::Cells;
use super::walk::{connector, first_above};
use fan_bits::{Connectors, Mark, Order};

/// The marks that rows of cells picture from a root.
#[derive(Drop)]
pub struct RowConnectors<C: Cells + Drop> {
    cells: C,
    root: u64,
}

impl<C: Cells + Drop> RowConnectors<C> {
    /// The marks that the cells picture from a root.
    pub fn new(cells: C, root: u64) -> RowConnectors<C>
        ensures cells { result.cells ≡ cells }
        ensures root { result.root ≡ root }
    {
        RowConnectors { cells, root }
    }

    /// The cells.
    pub fn into_cells(self) -> C
        ensures { result ≡ self.cells }
    {
        self.cells
    }
}

impl<C: Cells + Drop> Connectors for RowConnectors<C> {
    ghost shows = { λ it marks. Pictures (C.words it.cells) it.root marks × IsMarkList marks };

    ghost is_list = { λ it marks shown. shown.1 };

    /// Goes down the index by the digits of the object, and along its marks. Takes no memory.
    fn next(&mut self, object: u32, after: Order) -> Option<Mark>
        requires object { IsObject object }
        requires shown { (marks : List Mark)
            × (Pictures (C.words self.old.cells) self.old.root marks × IsMarkList marks) }
        ensures found { (marks : List Mark) → Pictures (C.words self.old.cells) self.old.root marks
            × IsMarkList marks → result ≡ next_on marks object after.0 }
        ensures same { (marks : List Mark) → Pictures (C.words self.old.cells) self.old.root marks
            × IsMarkList marks → Pictures (C.words self.new.cells) self.new.root marks
            × IsMarkList marks }
        ensures words { C.words self.new.cells ≡ C.words self.old.cells }
        ensures rows { C.rows self.new.cells ≡ C.rows self.old.cells }
        ensures root { self.new.root ≡ self.old.root }
    {
        let first = connector(&mut self.cells, self.root, object);
        first_above(&mut self.cells, first, after)
    }
}
