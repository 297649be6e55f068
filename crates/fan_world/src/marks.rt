// All marks: in a book, which tells why a change is refused, and in a table with sections.
ghost use Rattle.std.specs.Prelude.{◌≡◌, ◌≤◌, ◌+◌, ◌<◌, ◌^◌, ◌++◌, ◌∷◌, ◌↔◌, List, [], All, IfOk, OnErr, OnOk, None, false, true, length};
ghost use Rattle.std.specs.Map.{keys_of};
ghost use Rattle.fan_access.specs.Access.{AccessState, access_step};
ghost use Rattle.fan_access.specs.Kept.{IsAccess, IsStepped};
ghost use Rattle.fan_bits.specs.declared.mark.Mark.{Mark};
ghost use Rattle.fan_bits.specs.Marks.{IsChange, IsMarkList, changed, retired};
ghost use Rattle.fan_bits.specs.Refusals.{lacks_mark, makes_mark, refusal_of};
ghost use Rattle.fan_grace.specs.declared.section.Section.{Section};
ghost use Rattle.fan_listener.specs.Groups.{IsCalledOnce};
ghost use Rattle.fan_world.specs.Marks.{Dropped, Emptied, HasEdited};
ghost use Rattle.fan_world.specs.Retired.{kept_grace, reclaimed_count};
ghost use Rattle.fan_world.specs.Sections.{HasEntered, HasRoom, IsThere, Keeps};

use super::open_accesses::OpenAccesses;
use super::retirement::Retirement;
use super::sections::Sections;
use super::shown::step_by;
use fan_access::{Access, StepOutcome};
use fan_bits::{Change, Errno};
use fan_grace::Section;
use fan_groups::Groups;
use fan_io::NoMemory;
use fan_marks::MarkBook;
use std::alloc::Global;
use std::marker::Model;

/// The marks in a book and in a table by whose sections accesses go, and the count of those that
/// were retired. A change is made in both, or in none.
#[derive(Drop)]
pub(crate) struct Marks<S: Sections> {
    book: MarkBook,
    sections: S,
    retirement: Retirement,
}

impl<S: Sections> Model for Marks<S> {
    ghost use Rattle.fan_world.specs.Marks.{MarksState};

    ghost Value = { MarksState S };

    ghost view = { λ m. record {
      sections = m.sections;
      marks = m.book.marks;
      spare = m.book.spare;
      waiting = m.retirement.waiting;
      batch = m.retirement.batch;
    } };

    ghost invariant = { λ m. S.honest m.sections → S.present m.sections m.book.marks };
}

impl<S: Sections> Marks<S> {
    /// No marks, in a table that has none either.
    ///
    /// # Errors
    /// `NoMemory` if there was none for the book.
    pub(crate) fn over(alloc: Global, sections: S) -> Result<Marks<S>, NoMemory>
        requires present { S.honest sections → S.present sections [] }
        ensures sections { IfOk result (λ marks. marks.sections ≡ sections) }
        ensures empty { IfOk result (λ marks. marks.marks ≡ []) }
        ensures waiting { IfOk result (λ marks. marks.waiting ≡ 0) }
        ensures batch { IfOk result (λ marks. marks.batch ≡ None) }
    {
        let book = MarkBook::new(alloc)?;
        Ok(Marks {
            book,
            sections,
            retirement: Retirement::new(),
        })
    }

    /// The table with its sections.
    pub(crate) fn sections(&self) -> &S
        ensures value { result.now ≡ self.now.sections }
        ensures present { S.honest self.now.sections → S.present self.now.sections self.now.marks }
    {
        &self.sections
    }

    /// Makes room in the book for a new mark, so that the next change finds it there.
    ///
    /// # Errors
    /// `NoMemory` if there was no room and none could be made.
    pub(crate) fn reserve(&mut self) -> Result<(), NoMemory>
        ensures room { OnOk result (1 ≤ self.new.spare) }
        ensures same { self.new ≡ record self.old { spare = self.new.spare } }
    {
        self.book.reserve()
    }

    /// Why a change would be refused, if it would: ENOENT, ENOSPC.
    pub(crate) fn refusal(&self, change: &Change, unlimited: bool) -> Option<Errno>
        requires { IsChange self.now.marks change.now }
        ensures { result ≡ refusal_of self.now.marks change.now unlimited }
    {
        self.book.refusal(change, unlimited)
    }

    /// Makes a change of the marks; those that it retires wait for a batch.
    ///
    /// # Errors
    /// `NoMemory` if there was none for the change of the table. Nothing changed then.
    pub(crate) fn change(&mut self, change: &Change) -> Result<(), NoMemory>
        requires is_change { IsChange self.old.marks change.now }
        requires has_mark { lacks_mark self.old.marks change.now ≡ false }
        requires room { makes_mark self.old.marks change.now ≡ true → 1 ≤ self.old.spare }
        requires few { self.old.waiting < 2 ^ 63 }
        ensures marks { OnOk result (self.new.marks ≡ changed self.old.marks change.now) }
        ensures waiting { OnOk result (self.new.waiting
            ≡ self.old.waiting + length (retired self.old.marks change.now)) }
        ensures few { OnOk result (length (retired self.old.marks change.now) < 2 ^ 32) }
        ensures whole { OnOk result (IsMarkList self.new.marks) }
        ensures batch { self.new.batch ≡ self.old.batch }
        ensures keeps { (sections : List Section) → S.inside self.old.sections sections
            → Keeps S.inside S.shows S.honest self.old.sections self.new.sections sections }
        ensures err { OnErr result (self.new ≡ self.old) }
    {
        self.sections.change(change)?;
        match self.book.change(change, true) {
            Ok(done) => self.retirement.retire(done.retired),
            Err(_) => unreachable!(),
        }
        Ok(())
    }

    /// Enters a section, which shows the marks as they stand. Takes no memory.
    pub(crate) fn enter(&mut self) -> Section
        requires few { HasRoom S.inside self.old.sections }
        ensures entered { HasEntered S.inside S.shows S.honest self.old.sections self.new.sections
            result self.old.marks }
        ensures step { S.entered self.old.sections result self.new.sections }
        ensures same { self.new ≡ record self.old { sections = self.new.sections } }
    {
        self.sections.enter()
    }

    /// Empties the ignored sets on an object, unless they survive, and then enters a section.
    ///
    /// # Errors
    /// `NoMemory` if there was none for the change of the table. Nothing changed then.
    pub(crate) fn clear_and_enter(&mut self, object: u32) -> Result<Section, NoMemory>
        requires room { HasRoom S.inside self.old.sections }
        requires few { self.old.waiting < 2 ^ 63 }
        ensures edited { IfOk result (λ section.
            HasEdited S.inside S.shows S.honest (Emptied object) self.old self.new section) }
        ensures err { OnErr result (self.new ≡ self.old) }
    {
        self.change(&Change::Clear { object })?;
        Ok(self.enter())
    }

    /// Enters a section, and then takes away the marks on an object, which the section shows still.
    ///
    /// # Errors
    /// `NoMemory` if there was none for the change of the table. Nothing changed then, and no
    /// section was entered.
    pub(crate) fn enter_and_drop(&mut self, object: u32) -> Result<Section, NoMemory>
        requires room { HasRoom S.inside self.old.sections }
        requires few { self.old.waiting < 2 ^ 63 }
        ensures edited { IfOk result (λ section.
            HasEdited S.inside S.shows S.honest (Dropped object) self.old self.new section) }
        ensures err { OnErr result (self.new ≡ self.old) }
    {
        let section = self.enter();
        match self.change(&Change::DropObject { object }) {
            Ok(()) => Ok(section),
            Err(NoMemory) => {
                self.leave(section);
                Err(NoMemory)
            }
        }
    }

    /// Lets an access do its next single step by the marks that its section shows. The step itself
    /// allocates nothing; `NoMemory` comes from the listeners, and changes nothing.
    pub(crate) fn step(
        &mut self,
        section: Section,
        access: &mut Access,
        groups: &mut Groups,
    ) -> Result<StepOutcome, NoMemory>
        requires there { IsThere S.inside self.old.sections section }
        requires entries { All (λ listener. listener.next_entry ≤ 2 ^ 31) groups.old }
        ensures ok { IfOk result (λ outcome. (marks : List Mark) (state : AccessState)
            → S.shows self.old.sections section marks → IsAccess marks access.old state
            → IsStepped marks outcome groups.new access.new (access_step groups.old state)) }
        ensures calls { IsCalledOnce groups.old groups.new }
        ensures same { self.new ≡ self.old }
        ensures same_spots { access.new.spots ≡ access.old.spots }
        ensures err { OnErr result (access.new ≡ access.old) }
        ensures groups { OnErr result (groups.new ≡ groups.old) }
    {
        step_by(&mut self.sections, section, access, groups)
    }

    /// Leaves a section. Takes no memory.
    pub(crate) fn leave(&mut self, section: Section)
        requires there { IsThere S.inside self.old.sections section }
        ensures keeps { (before after : List Section)
            → S.inside self.old.sections (before ++ section ∷ after)
            → Keeps S.inside S.shows S.honest self.old.sections self.new.sections
            (before ++ after) }
        ensures back { (before : S) → S.entered before section self.old.sections
            → self.new.sections ≡ before }
        ensures same { self.new ≡ record self.old { sections = self.new.sections } }
    {
        self.sections.leave(section);
    }

    /// Ends the batch under way, if no access of it is open, and then starts one, if none is under
    /// way and something waits. Gives how many marks were reclaimed.
    pub(crate) fn grace(&mut self, accesses: &OpenAccesses) -> u64
        ensures reclaimed { result ≡ reclaimed_count accesses.now.entries self.old.batch }
        ensures kept { record { waiting = self.new.waiting; batch = self.new.batch }
            ≡ kept_grace accesses.now.entries accesses.now.last
            (record { waiting = self.old.waiting; batch = self.old.batch }) }
        ensures begun { All (λ number. number ≤ accesses.now.last)
            (keys_of accesses.now.entries) }
        ensures same { self.new
            ≡ record self.old { waiting = self.new.waiting; batch = self.new.batch } }
    {
        self.retirement.grace(accesses)
    }
}
