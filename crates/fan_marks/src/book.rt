// The book of marks: its indexes, and what it tells.
ghost use Rattle.std.specs.Prelude.{◌≡◌, ◌≢◌, ◌+◌, ◌≤◌, ◌↔◌, ◌++◌, true, [], List, None, IfErr, IfOk, IsOk, OnErr, OnOk, length, vec_capacity};
ghost use Rattle.fan_bits.specs.declared.mark.Mark.{Mark};
ghost use Rattle.fan_bits.specs.Marks.{IsChange, IsMarkList, changed, count_of, mark_of, next_on, on, retired};
ghost use Rattle.fan_bits.specs.Places.{IsObject};
ghost use Rattle.fan_bits.specs.Refusals.{makes_mark, refusal_of};
ghost use Rattle.fan_marks.specs.Book.{IsRefused};

use super::keys::{GroupKey, ObjectKey};
use super::refused::MarkRefused;
use super::selection::Selection;
use fan_bits::{Change, Changed, Class, Connectors, Errno, Mark, Order};
use fan_io::NoMemory;
use fan_map::Map;
use fan_map::counts::number_at;
use fan_seen::Seen;
use std::alloc::Global;
use std::marker::Model;
use std::ops::Bound;

// How many marks a book holds at most, so that their number is a u32.
pub(crate) const MAX_STORED: usize = 4_294_967_295;

/// All marks of all groups.
///
/// Contracts see the list of marks, in the order of objects and on one object of groups, and how
/// many new marks the book takes without memory.
#[derive(Drop)]
pub struct MarkBook {
    // The marks, by object and order.
    pub(crate) by_object: Map<ObjectKey, Mark>,
    // The class of each mark, by its group and, in a group, by the kind of the object and object.
    pub(crate) by_group: Map<GroupKey, Class>,
    // How many marks each group has that has one.
    pub(crate) counts: Map<u32, u32>,
    // The objects on which a mark ever stood, so that none is searched for on the others.
    pub(crate) marked: Seen,
}

impl Model for MarkBook {
    ghost use Rattle.fan_marks.specs.Book.{BookState};

    ghost Value = { BookState };

    ghost use Rattle.std.specs.Prelude.{◌-◌, length, min};
    ghost use Rattle.std.specs.Map.{values_of};
    ghost use Rattle.fan_marks.specs.Stored.{AreMarked, IsStored, max_stored};

    ghost view = { λ b. record {
      marks = values_of b.by_object.entries;
      spare = min (min b.by_object.spare b.by_group.spare)
          (min b.counts.spare (max_stored - length b.by_object.entries));
    } };

    ghost invariant = { λ b. IsStored b.by_object.entries b.by_group.entries b.counts.entries
        × AreMarked b.marked (values_of b.by_object.entries) };
}

impl MarkBook {
    /// A book without marks.
    ///
    /// # Errors
    /// `NoMemory` if there was none.
    pub fn new(alloc: Global) -> Result<MarkBook, NoMemory>
        ensures empty { IfOk result (λ book. book.marks ≡ []) }
    {
        Ok(MarkBook {
            by_object: Map::new(alloc),
            by_group: Map::new(alloc),
            counts: Map::new(alloc),
            marked: Seen::new(alloc)?,
        })
    }

    /// The mark of a group on an object; None exactly when there is none.
    pub fn find(&self, group: u32, object: u32) -> Option<Mark>
        ensures found { result ≡ mark_of self.now.marks group object }
        ensures whole { IsMarkList self.now.marks }
    {
        let first = self.first(Selection::OfGroup { group })?;
        self.get(ObjectKey { object, ..first })
    }

    /// How many marks a group has.
    pub fn count(&self, group: u32) -> u32
        ensures count { result ≡ count_of self.now.marks group }
        ensures whole { IsMarkList self.now.marks }
    {
        number_at(&self.counts, group)
    }

    /// Appends the marks on an object, in the order of their groups. Allocates only if `out` has no
    /// room for them.
    ///
    /// # Errors
    /// `NoMemory` if `out` couldn't grow; it has some of the marks then.
    pub fn marks_on(&self, object: u32, out: &mut Vec<Mark>) -> Result<(), NoMemory>
        ensures ok { OnOk result (out.new.items ≡ out.old.items ++ on object self.now.marks) }
        ensures fits { length out.old.items + length (on object self.now.marks)
            ≤ vec_capacity out.old → IsOk result }
        ensures whole { IsMarkList self.now.marks }
    {
        if !self.marked.has(object) {
            return Ok(());
        }
        let start = ObjectKey {
            object,
            order: Order::START,
        };
        for (key, mark) in self.by_object.iter_from(Bound::Included(&start)) {
            if key.object != object {
                break;
            }
            out.push(*mark)?;
        }
        Ok(())
    }

    /// Makes room for a new mark, so that the next change finds it whatever memory is left then.
    /// Allocates only if there is no room yet.
    ///
    /// # Errors
    /// `NoMemory` if there was no room and none could be made.
    pub fn reserve(&mut self) -> Result<(), NoMemory>
        ensures room { OnOk result (1 ≤ self.new.spare) }
        ensures full { OnErr result (self.old.spare ≡ 0) }
        ensures same { self.new.marks ≡ self.old.marks }
    {
        if self.by_object.len() >= MAX_STORED {
            return Err(NoMemory);
        }
        self.by_object.reserve()?;
        self.by_group.reserve()?;
        self.counts.reserve()?;
        Ok(())
    }

    /// Why a change would be refused, if it would: `Enoent` if bits are to be taken from a mark
    /// that isn't there, and else `Enospc` if a group that isn't `unlimited` has 8,192 marks and
    /// would get a new one: fanotify_mark(2).
    pub fn refusal(&self, change: &Change, unlimited: bool) -> Option<Errno>
        requires { IsChange self.now.marks change.now }
        ensures { result ≡ refusal_of self.now.marks change.now unlimited }
    {
        let Change::Put {
            group,
            class,
            words,
            object,
        } = *change
        else {
            return None;
        };
        self.slot(group, class, words, object, unlimited).err()
    }

    /// Makes a change. Allocates only for a new mark for which there is no room.
    ///
    /// # Errors
    /// `NoMark` exactly if bits are to be taken from a mark that isn't there, and else `Limit`
    /// exactly if a group that isn't `unlimited` has 8,192 marks and would get a new one;
    /// `NoMemory` if there was no room for a new mark and none could be made.
    pub fn change(&mut self, change: &Change, unlimited: bool) -> Result<Changed, MarkRefused>
        requires { IsChange self.old.marks change.now }
        ensures ok { OnOk result (self.new.marks ≡ changed self.old.marks change.now) }
        ensures changed { IfOk result (λ done. (done.changed ≡ true)
            ↔ (changed self.old.marks change.now ≢ self.old.marks)) }
        ensures retired { IfOk result (λ done.
            done.retired ≡ length (retired self.old.marks change.now)) }
        ensures taken { OnOk result (refusal_of self.old.marks change.now unlimited ≡ None) }
        ensures refused { IfErr result (λ why.
            IsRefused self.old why (refusal_of self.old.marks change.now unlimited)) }
        ensures growth { result ≡ Err MarkRefused.NoMemory
            → makes_mark self.old.marks change.now ≡ true }
        ensures err { OnErr result (self.new.marks ≡ self.old.marks) }
        ensures whole { IsMarkList self.new.marks }
    {
        let _ = &self.by_object; // What a book holds is a list of marks.
        Ok(match *change {
            Change::Put {
                group,
                class,
                words,
                object,
            } => {
                let slot = match self.slot(group, class, words, object, unlimited) {
                    Ok(slot) => slot,
                    Err(errno) => return Err(MarkRefused::of(errno)),
                };
                self.put(&slot)?
            }
            Change::Flush { group, kind } => self.drop_all(Selection::OfKind { group, kind }),
            Change::Clear { object } => self.clear(object),
            Change::DropGroup { group } => self.drop_all(Selection::OfGroup { group }),
            Change::DropObject { object } => self.drop_all(Selection::OnObject { object }),
        })
    }
}

impl Connectors for MarkBook {
    ghost shows = { λ book marks. (marks ≡ book.marks) × IsMarkList marks };

    ghost is_list = { λ book marks shown. shown.1 };

    fn next(&mut self, object: u32, after: Order) -> Option<Mark>
        requires object { IsObject object }
        requires shown { (marks : List Mark) × (marks ≡ self.old.marks) × IsMarkList marks }
        ensures found { (marks : List Mark) → (marks ≡ self.old.marks) × IsMarkList marks
            → result ≡ next_on marks object after.0 }
        ensures same { self.new ≡ self.old }
    {
        self.next_on(object, after)
    }
}
