// The open accesses by their numbers.
ghost use Rattle.std.specs.Prelude.{◌≡◌, ◌+◌, ◌≤◌, ◌<◌, ◌^◌, ◌∷◌, ◌++◌, [], All, IfNone, IfOk, IfSome, None, OnErr, OnOk, Some, length};
ghost use Rattle.std.specs.BTreeMap.{insert_entry, is_at};
ghost use Rattle.std.specs.List.{list_any};
ghost use Rattle.std.specs.Map.{keys_of, lookup, remove_entry, values_of};
ghost use Rattle.std.specs.Ordering.{nat_cmp};
ghost use Rattle.fan_access.specs.Access.{AccessState, access_step};
ghost use Rattle.fan_access.specs.Kept.{IsAccess};
ghost use Rattle.fan_listener.specs.Groups.{IsCalledOnce};
ghost use Rattle.fan_world.specs.declared.open_accesses.OpenAccess.{OpenAccess};
ghost use Rattle.fan_world.specs.Machine.{sections_of};
ghost use Rattle.fan_world.specs.Opened.{HasStepped, is_through};
ghost use Rattle.fan_world.specs.Retired.{has_up_to};
ghost use Rattle.fan_world.specs.Sections.{Keeps};

use super::marks::Marks;
use super::sections::Sections;
use fan_access::{Access, StepOutcome};
use fan_grace::Section;
use fan_groups::Groups;
use fan_io::NoMemory;
use fan_map::Map;
use fan_map::counts::{add_one, number_at, take_one};
use fan_slots::Slots;
use std::alloc::Global;
use std::marker::Model;

/// An open access, and the section by which it goes.
#[derive(Drop)]
pub(crate) struct OpenAccess {
    /// Where it stands.
    pub(crate) access: Access,
    /// The section that shows the marks as they stood at its begin.
    pub(crate) section: Section,
}

/// The open accesses, found by their numbers, and the greatest number that an access had.
#[derive(Drop)]
pub(crate) struct OpenAccesses {
    by_number: Slots<OpenAccess>,
    // How many were begun through each mount.
    through: Map<u32, u32>,
    last: u32,
}

impl Model for OpenAccesses {
    ghost use Rattle.std.specs.Prelude.{min};
    ghost use Rattle.fan_world.specs.Opened.{AreCounted, OpenState};

    ghost Value = { OpenState };

    ghost view = { λ a. record {
      entries = a.by_number.entries;
      last = a.last;
      spare = min a.by_number.spare a.through.spare;
    } };

    ghost invariant = { λ a. AreCounted a.by_number.entries a.through.entries a.last };
}

impl OpenAccesses {
    /// No access is open, and none has begun. Allocates nothing.
    pub(crate) fn new(alloc: Global) -> OpenAccesses
        ensures entries { result.entries ≡ [] }
        ensures last { result.last ≡ 0 }
    {
        OpenAccesses {
            by_number: Slots::new(alloc),
            through: Map::new(alloc),
            last: 0,
        }
    }

    /// The greatest number that an access had, whether it is open or not; 0 if none has begun.
    pub(crate) fn last(&self) -> u32
        ensures last { result ≡ self.now.last }
        ensures begun { All (λ number. number ≤ self.now.last) (keys_of self.now.entries) }
    {
        self.last
    }

    /// Whether an open access was begun through a mount.
    pub(crate) fn has_through(&self, mount: u32) -> bool
        ensures { result ≡ list_any (is_through mount) (values_of self.now.entries) }
    {
        number_at(&self.through, mount) > 0
    }

    /// Whether an open access has a number up to this one.
    pub(crate) fn has_up_to(&self, number: u32) -> bool
        ensures { result ≡ has_up_to self.now.entries number }
    {
        match self.by_number.first() {
            Some(least) => least <= number,
            None => false,
        }
    }

    /// Makes room for an access, so that it can begin whatever memory is left then.
    ///
    /// # Errors
    /// `NoMemory` if there was no room and none could be made.
    pub(crate) fn reserve(&mut self) -> Result<(), NoMemory>
        ensures room { OnOk result (1 ≤ self.new.spare) }
        ensures entries { self.new.entries ≡ self.old.entries }
        ensures last { self.new.last ≡ self.old.last }
        ensures full { OnErr result (self.old.spare ≡ 0) }
    {
        self.by_number.reserve()?;
        self.through.reserve()?;
        Ok(())
    }

    /// Opens an access with a number above all before it. Allocates nothing.
    pub(crate) fn add_reserved(&mut self, number: u32, begun: OpenAccess)
        requires room { 1 ≤ self.old.spare }
        requires above { self.old.last < number }
        ensures entries { self.new.entries ≡ insert_entry nat_cmp self.old.entries number begun }
        ensures sections { sections_of self.new.entries
            ≡ sections_of self.old.entries ++ begun.section ∷ [] }
        ensures one_more { length self.new.entries ≡ length self.old.entries + 1 }
        ensures last { self.new.last ≡ number }
    {
        add_one(&mut self.through, begun.access.mount());
        self.by_number.insert_reserved(number, begun);
        self.last = number;
    }

    /// Lets the access with a number do its next single step by the marks that its section shows.
    /// If the outcome ends it, it is open no more, and leaves its section. None exactly if no such
    /// access is open. The step itself allocates nothing; `NoMemory` comes from the listeners, and
    /// changes nothing.
    pub(crate) fn step<S: Sections>(
        &mut self,
        marks: &mut Marks<S>,
        groups: &mut Groups,
        number: u32,
    ) -> Result<Option<StepOutcome>, NoMemory>
        requires entries { All (λ listener. listener.next_entry ≤ 2 ^ 31) groups.old }
        requires there { S.inside marks.old.sections (sections_of self.old.entries) }
        ensures stepped { IfOk result (λ found. IfSome found (λ outcome.
            (kept : OpenAccess) (access : AccessState)
            → lookup (is_at (nat_cmp number)) self.old.entries ≡ Some kept
            → S.shows marks.old.sections kept.section access.view
            → IsAccess access.view kept.access access
            → HasStepped number kept.section access.view (access_step groups.old access) outcome
            groups.new self.old.entries self.new.entries)) }
        ensures some { IfOk result (λ found. IfSome found (λ _. (kept : OpenAccess)
            × (lookup (is_at (nat_cmp number)) self.old.entries ≡ Some kept))) }
        ensures none { IfOk result (λ found. IfNone found
            (lookup (is_at (nat_cmp number)) self.old.entries ≡ None)) }
        ensures none_same { IfOk result (λ found. IfNone found
            (self.new.entries ≡ self.old.entries)) }
        ensures none_marks { IfOk result (λ found. IfNone found (marks.new ≡ marks.old)) }
        ensures none_groups { IfOk result (λ found. IfNone found (groups.new ≡ groups.old)) }
        ensures keeps { Keeps S.inside S.shows S.honest marks.old.sections marks.new.sections
            (sections_of self.new.entries) }
        ensures marks { marks.new ≡ record marks.old { sections = marks.new.sections } }
        ensures calls { IsCalledOnce groups.old groups.new }
        ensures few { length self.new.entries ≤ length self.old.entries }
        ensures last { self.new.last ≡ self.old.last }
        ensures err { OnErr result (self.new.entries ≡ self.old.entries) }
        ensures err_marks { OnErr result (marks.new ≡ marks.old) }
        ensures groups { OnErr result (groups.new ≡ groups.old) }
    {
        let Some(stepping) = self.by_number.get_mut(number) else {
            return Ok(None);
        };
        let outcome = marks.step(stepping.section, &mut stepping.access, groups)?;
        if outcome.ends_access() {
            self.end(marks, number);
        }
        Ok(Some(outcome))
    }

    // Takes away an access that is finished, and leaves its section.
    fn end<S: Sections>(&mut self, marks: &mut Marks<S>, number: u32)
        requires there { S.inside marks.old.sections (sections_of self.old.entries) }
        ensures entries { self.new.entries
            ≡ remove_entry (is_at (nat_cmp number)) self.old.entries }
        ensures last { self.new.last ≡ self.old.last }
        ensures keeps { Keeps S.inside S.shows S.honest marks.old.sections marks.new.sections
            (sections_of self.new.entries) }
        ensures marks { marks.new ≡ record marks.old { sections = marks.new.sections } }
    {
        if let Some(ended) = self.by_number.remove(number) {
            take_one(&mut self.through, ended.access.mount());
            marks.leave(ended.section);
        }
    }
}
