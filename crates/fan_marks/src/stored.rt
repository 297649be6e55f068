// The marks at their keys: how one is found, put in and taken out, in each index alike.
ghost use Rattle.std.specs.Prelude.{◌≡◌, ◌≤◌, true, None, Some, find, is_some};
ghost use Rattle.std.specs.Map.Iter.{deref_pair};
ghost use Rattle.std.specs.Option.{IsSomeAnd, option_map};
ghost use Rattle.fan_bits.specs.Marks.{next_on};
ghost use Rattle.fan_marks.specs.Keys.{group_key, has_object_key, object_key, replaced};
ghost use Rattle.fan_marks.specs.Selected.{IsOneOf, IsStart, is_selected, on_object, selected_key};
ghost use Rattle.fan_marks.specs.Stored.{AreWhole, IsStorable};

use super::book::MarkBook;
use super::keys::{GroupKey, ObjectKey};
use super::selection::Selection;
use fan_bits::{Class, Kind, Mark, Order};
use fan_map::counts::{add_one, take_one};
use std::ops::Bound;

// The mark of an entry, if it is on an object.
fn on_object(entry: Option<(&ObjectKey, &Mark)>, object: u32) -> Option<Mark>
    ensures { result ≡ on_object object (option_map deref_pair entry.entry) }
{
    let (key, mark) = entry?;
    if key.object == object {
        Some(*mark)
    } else {
        None
    }
}

// The key of the mark that an entry stands for, if it is selected.
fn selected_key(entry: Option<(&GroupKey, &Class)>, selection: Selection) -> Option<ObjectKey>
    ensures { result ≡ selected_key selection (option_map deref_pair entry.entry) }
{
    let (key, class) = entry?;
    if selection.selects(key) {
        Some(ObjectKey::new(key.object, *class, key.group))
    } else {
        None
    }
}

impl MarkBook {
    /// The mark with a key.
    pub(crate) fn get(&self, key: ObjectKey) -> Option<Mark>
        ensures mark { result ≡ find (has_object_key key) self.now.marks }
        ensures whole { AreWhole self.now.marks }
    {
        self.by_object.get(&key).copied()
    }

    /// The first mark on an object behind an order.
    pub(crate) fn next_on(&self, object: u32, after: Order) -> Option<Mark>
        ensures mark { result ≡ next_on self.now.marks object after.0 }
        ensures whole { AreWhole self.now.marks }
    {
        if !self.marked.has(object) {
            return None;
        }
        let after = ObjectKey {
            object,
            order: after,
        };
        on_object(self.by_object.first_from(Bound::Excluded(&after)), object)
    }

    /// The key of a mark that is selected, if there is one.
    pub(crate) fn first(&self, selection: Selection) -> Option<ObjectKey>
        ensures found { IsOneOf (is_selected selection) self.now.marks result }
        ensures whole { AreWhole self.now.marks }
    {
        match selection {
            Selection::OfKind { group, kind } => self.first_in_group(group, kind, selection),
            Selection::OfGroup { group } => self.first_in_group(group, Kind::Inode, selection),
            Selection::OnObject { object } => {
                let mark = self.next_on(object, Order::START)?;
                Some(ObjectKey::of(&mark))
            }
        }
    }

    // The key of the first mark of a group from a kind on, if it is selected.
    fn first_in_group(&self, group: u32, kind: Kind, selection: Selection) -> Option<ObjectKey>
        requires { IsStart selection group kind }
        ensures found { IsOneOf (is_selected selection) self.now.marks result }
        ensures whole { AreWhole self.now.marks }
    {
        let start = GroupKey {
            group,
            kind,
            object: 0,
        };
        selected_key(self.by_group.first_from(Bound::Included(&start)), selection)
    }

    /// Puts in a mark with a new key, into the room that was made.
    pub(crate) fn insert(&mut self, mark: Mark)
        requires room { 1 ≤ self.old.spare }
        requires fits { IsStorable self.old.marks mark }
        requires absent { find (has_object_key (object_key mark)) self.old.marks ≡ None }
        ensures marks { self.new.marks ≡ replaced self.old.marks (object_key mark) (Some mark) }
        ensures whole { AreWhole self.new.marks }
    {
        self.marked.add(mark.object);
        self.by_object.insert_reserved(ObjectKey::of(&mark), mark);
        self.by_group
            .insert_reserved(GroupKey::of(&mark), mark.class);
        add_one(&mut self.counts, mark.group);
    }

    /// Puts in a mark in place of another of its group on the same object.
    pub(crate) fn update(&mut self, mark: Mark)
        requires fits { IsStorable self.old.marks mark }
        requires here { IsSomeAnd (find (has_object_key (object_key mark)) self.old.marks)
            (λ old. group_key old ≡ group_key mark) }
        ensures marks { self.new.marks ≡ replaced self.old.marks (object_key mark) (Some mark) }
        ensures whole { AreWhole self.new.marks }
    {
        self.by_object.replace(&ObjectKey::of(&mark), mark);
    }

    /// Takes out the mark with a key.
    pub(crate) fn remove(&mut self, key: ObjectKey)
        requires { is_some (find (has_object_key key) self.old.marks) ≡ true }
        ensures marks { self.new.marks ≡ replaced self.old.marks key None }
        ensures whole { AreWhole self.new.marks }
    {
        let Some(mark) = self.by_object.remove(&key) else {
            unreachable!()
        };
        self.by_group.remove(&GroupKey::of(&mark));
        take_one(&mut self.counts, mark.group);
    }
}
