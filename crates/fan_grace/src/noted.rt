// On which objects each group has marks, or had them since it was flushed.
ghost use Rattle.std.specs.Prelude.{◌≡◌, ◌≢◌, ◌==◌, ◌<◌, ◌≤◌, [], ℕ, All, IfOk, None, OnOk, Some, filter, if◌then◌else◌, map, true};
ghost use Rattle.std.specs.List.{list_any};
ghost use Rattle.fan_rows.specs.Coding.{kind_number};
ghost use Rattle.fan_grace.specs.Noted.{end_place, first_place, is_within, noted_at, place_of};

use fan_bits::{Change, Kind};
use fan_io::NoMemory;
use fan_map::Map;
use std::alloc::Global;
use std::marker::Model;
use std::ops::Bound;

// For how many kinds a group has places.
const KINDS: u64 = 4;

// For how many objects a kind of a group has places.
const OBJECTS: u64 = 65_536;

/// The objects on which groups have marks, or had them since they were flushed.
///
/// Each has a place, by its group and its kind: those of one kind of a group follow each other, and
/// so do those of one group. Contracts see the places with their objects, and how many more can be
/// noted without memory.
#[derive(Drop)]
pub(crate) struct Noted {
    objects: Map<u64, u32>,
    alloc: Global,
}

impl Model for Noted {
    ghost use Rattle.std.specs.Prelude.{ℕ};
    ghost use Rattle.fan_map.specs.MapState.{MapState};

    ghost Value = { MapState ℕ ℕ };

    ghost view = { λ n. n.objects };
}

impl Noted {
    /// No object. Takes no memory.
    pub(crate) fn new(alloc: Global) -> Noted
        ensures { result.entries ≡ [] }
    {
        Noted {
            objects: Map::new(alloc),
            alloc,
        }
    }

    /// Makes room for one more, if there is none.
    ///
    /// # Errors
    /// `NoMemory` if there was no room and none could be made.
    pub(crate) fn reserve(&mut self) -> Result<(), NoMemory>
        ensures room { OnOk result (1 ≤ self.new.spare) }
        ensures same { self.new.entries ≡ self.old.entries }
    {
        self.objects.reserve()?;
        Ok(())
    }

    /// Notes an object of a group. Takes no memory.
    pub(crate) fn note(&mut self, group: u32, kind: Kind, object: u32)
        requires { 1 ≤ self.old.spare }
        ensures { (q : ℕ) → noted_at self.new.entries q
            ≡ (if q == place_of group kind object then Some object
            else noted_at self.old.entries q) }
    {
        let place = place_of(group, kind, object);
        if self.objects.replace(&place, object).is_none() {
            self.objects.insert_reserved(place, object);
        }
    }

    /// The places of a span with their objects.
    ///
    /// # Errors
    /// `NoMemory` if there was none for them.
    pub(crate) fn within(&self, span: &Span) -> Result<Vec<(u64, u32)>, NoMemory>
        ensures found { IfOk result (λ found.
            found.items ≡ filter (λ e. is_within span.now e.0) self.now.entries) }
        ensures all { IfOk result (λ found. (q o : ℕ) → span.now.first ≤ q → q < span.now.end
            → noted_at self.now.entries q ≡ Some o
            → list_any (λ object. object == o) (map (λ e. e.1) found.items) ≡ true) }
        ensures inside { IfOk result (λ found.
            All (λ e. (span.now.first ≤ e.0) × (e.0 < span.now.end)) found.items) }
    {
        let mut found = Vec::new(self.alloc);
        for (place, object) in self.objects.iter_from(Bound::Included(&span.first)) {
            if *place >= span.end {
                break;
            }
            found.push((*place, *object))?;
        }
        Ok(found)
    }

    /// Forgets places. Takes no memory.
    pub(crate) fn forget(&mut self, places: &[(u64, u32)])
        ensures others { (q : ℕ) → All (λ e. q ≢ e.0) places.now
            → noted_at self.new.entries q ≡ noted_at self.old.entries q }
        ensures gone { All (λ e. noted_at self.new.entries e.0 ≡ None) places.now }
    {
        for (place, _) in places {
            self.objects.remove(place);
        }
    }
}

/// The places from one on, before another.
#[derive(Clone, Copy)]
pub(crate) struct Span {
    first: u64,
    end: u64,
}

impl Span {
    /// The places of the marks that a change takes away, if they are those of a group alone.
    pub(crate) fn of(change: &Change) -> Span
        ensures first { result.first ≡ first_place change.now }
        ensures end { result.end ≡ end_place change.now }
    {
        match *change {
            Change::Flush { group, kind } => {
                let first = place_of(group, kind, 0);
                Span {
                    first,
                    end: first + OBJECTS,
                }
            }
            Change::DropGroup { group } => Span {
                first: u64::from(group) * KINDS * OBJECTS,
                end: (u64::from(group) + 1) * KINDS * OBJECTS,
            },
            Change::Put { .. } | Change::Clear { .. } | Change::DropObject { .. } => {
                Span { first: 0, end: 0 }
            }
        }
    }
}

// The place of an object of a group.
fn place_of(group: u32, kind: Kind, object: u32) -> u64
    ensures { result ≡ place_of group kind object }
{
    (u64::from(group) * KINDS + kind_number(kind)) * OBJECTS + u64::from(object)
}

// The number of a kind.
fn kind_number(kind: Kind) -> u64
    ensures number { result ≡ kind_number kind }
    ensures small { result < 4 }
{
    match kind {
        Kind::Inode => 0,
        Kind::Mount => 1,
        Kind::Filesystem => 2,
    }
}
