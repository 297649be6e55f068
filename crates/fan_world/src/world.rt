// The machine over the table in which marks stand in rows.
ghost use Rattle.std.specs.Prelude.{◌≡◌, IfOk};
ghost use Rattle.fan_machine.specs.World.{initial_world};
ghost use Rattle.fan_world.specs.Machine.{IsMachine};

use super::machine::Machine;
use super::sections::Sections;
use fan_bits::{Change, Changed, Mark, Order};
use fan_grace::{Section, Table};
use fan_io::NoMemory;
use std::alloc::Global;

/// The machine over the table in which marks stand in rows. Its accesses go by the marks as they
/// stood at their begin.
pub type World = Machine<Table>;

impl Machine<Table> {
    /// The machine at the start: a filesystem with its root, mounted at `/`, and no group.
    ///
    /// # Errors
    /// `NoMemory` if there was none.
    pub fn new(alloc: Global) -> Result<World, NoMemory>
        ensures machine { IfOk result (λ world. IsMachine world initial_world) }
        ensures steps { IfOk result (λ world. world.steps ≡ 0) }
    {
        Machine::over(alloc, Table::new(alloc)?)
    }
}

impl Sections for Table {
    ghost use Rattle.std.specs.Prelude.{◌≡◌, ◌+◌};
    ghost use Rattle.fan_grace.specs.Tables.{IsInside, Present, Shows};
    ghost use Rattle.fan_world.specs.Machine.{IsHonest};
    ghost use Rattle.fan_world.specs.TableLaws.{inside_shows};

    ghost inside = { IsInside };

    ghost shows = { Shows };

    ghost honest = { IsHonest };

    ghost present = { Present };

    ghost entered = { λ old section new. new ≡ record old { inside = old.inside + 1 } };

    ghost is_list = { λ table section marks shown. shown.1 };

    ghost shows_some = { inside_shows };

    ghost present_list = { λ table marks honest present. present.1 };

    fn enter(&mut self) -> Section {
        self.enter()
    }

    fn leave(&mut self, section: Section) {
        self.leave(section);
    }

    fn next(&mut self, section: &Section, object: u32, after: Order) -> Option<Mark> {
        self.next(section, object, after)
    }

    fn change(&mut self, change: &Change) -> Result<Changed, NoMemory> {
        self.change(change)
    }
}
