// Bits that are put on a mark or taken from it: FAN_MARK_ADD and FAN_MARK_REMOVE.
ghost use Rattle.std.specs.Prelude.{◌≡◌, ◌≢◌, ◌↔◌, true, None, Some, IfErr, IfOk, IfSome, OnErr, OnOk, is_some};
ghost use Rattle.fan_bits.specs.declared.change.Change.TheVariants.{Put};
ghost use Rattle.fan_bits.specs.Marks.{IsPut, count_of};
ghost use Rattle.fan_bits.specs.Refusals.{makes_mark, refusal_of};
ghost use Rattle.fan_marks.specs.Book.{IsRefused};
ghost use Rattle.fan_marks.specs.Keys.{replaced};
ghost use Rattle.fan_marks.specs.Slot.{IsFillable, refusal_at, slot_of};
ghost use Rattle.fan_marks.specs.Stored.{AreWhole};
ghost use Rattle.fan_marks.specs.Summary.{IsMade, summary_at};

use super::book::MarkBook;
use super::keys::ObjectKey;
use super::refused::MarkRefused;
use fan_bits::{Change, Changed, Class, Errno, Mark, MarkWords, Verb, updated};
use fan_io::NoMemory;

// How many marks a group without FAN_UNLIMITED_MARKS may have.
pub(crate) const MAX_MARKS: u32 = 8192;

/// What a Put finds at the key of its mark, and leaves there.
#[derive(Drop)]
pub(crate) struct Slot {
    key: ObjectKey,
    old: Option<Mark>,
    new: Option<Mark>,
}

impl Slot {
    // The summary of the change.
    #[tactic(auto, unfolding(fan_bits::specs::Marks::same_mark))]
    fn summary(&self) -> Changed
        ensures { result ≡ summary_at self.now.old self.now.new }
    {
        let changed = self.old != self.new;
        let retired = self.old.is_some() && changed;
        Changed {
            changed,
            retired: if retired { 1 } else { 0 },
        }
    }
}

impl MarkBook {
    /// What a Put finds and leaves, or the errno with which it is refused.
    #[tactic(auto, unfolding(fan_bits::specs::Marks::updated))]
    pub(crate) fn slot(
        &self,
        group: u32,
        class: Class,
        words: MarkWords,
        object: u32,
        unlimited: bool,
    ) -> Result<Slot, Errno>
        requires { IsPut self.now.marks group class words object }
        ensures ok { IfOk result (λ slot. slot ≡ slot_of self.now.marks group class words object) }
        ensures taken { OnOk result
            (refusal_of self.now.marks (Put group class words object) unlimited ≡ None) }
        ensures refused { IfErr result (λ errno.
            refusal_of self.now.marks (Put group class words object) unlimited ≡ Some errno) }
        ensures whole { AreWhole self.now.marks }
    {
        let key = ObjectKey::new(object, class, group);
        let old = self.get(key);
        let change = Change::Put {
            group,
            class,
            words,
            object,
        };
        let new = updated(old, &change);
        let slot = Slot { key, old, new };
        match self.refusal_at(&slot, words.verb, group, unlimited) {
            Some(errno) => Err(errno),
            None => Ok(slot),
        }
    }

    // The errno with which a Put is refused, if it is.
    fn refusal_at(&self, slot: &Slot, verb: Verb, group: u32, unlimited: bool) -> Option<Errno>
        ensures { result ≡ refusal_at slot.now.old slot.now.new verb
            (count_of self.now.marks group) unlimited }
    {
        if slot.old.is_some() {
            return None;
        }
        if verb == Verb::Remove {
            return Some(Errno::Enoent);
        }
        if unlimited || slot.new.is_none() {
            return None;
        }
        if self.count(group) < MAX_MARKS {
            return None;
        }
        Some(Errno::Enospc)
    }

    /// Makes a Put of what its slot says.
    pub(crate) fn put(&mut self, slot: &Slot) -> Result<Changed, NoMemory>
        requires whole { AreWhole self.old.marks }
        requires slot { IsFillable self.old.marks slot.now }
        ensures marks { OnOk result
            (self.new.marks ≡ replaced self.old.marks slot.now.key slot.now.new) }
        ensures summary { IfOk result (λ done. done ≡ summary_at slot.now.old slot.now.new) }
        ensures err { OnErr result (self.new.marks ≡ self.old.marks) }
        ensures growth { OnErr result ((slot.now.old ≡ None) × (is_some slot.now.new ≡ true)) }
        ensures full { OnErr result (self.old.spare ≡ 0) }
        ensures whole { AreWhole self.new.marks }
    {
        match (slot.old, slot.new) {
            (None, None) => {}
            (None, Some(mark)) => {
                self.reserve()?;
                self.insert(mark);
            }
            (Some(_), Some(mark)) => self.update(mark),
            (Some(_), None) => self.remove(slot.key),
        }
        Ok(slot.summary())
    }
}
