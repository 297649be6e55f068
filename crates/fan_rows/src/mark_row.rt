// The words of a mark row.
ghost use Rattle.std.specs.Prelude.{◌≡◌, ◌%◌};
ghost use Rattle.fan_bits.specs.declared.mark.Mark.{Mark};
ghost use Rattle.fan_bits.specs.Marks.{IsMark};
ghost use Rattle.fan_bits.specs.declared.class.Class.{Class};
ghost use Rattle.fan_bits.specs.declared.kind.Kind.{Kind};
ghost use Rattle.fan_bits.specs.Words.{rank_of};
ghost use Rattle.fan_rows.specs.Coding.{group_word, kind_number, object_word, sets_word};

use fan_bits::{Class, Kind, Mark};

/// The three words by which a mark row tells its mark.
#[derive(Clone, Copy, Debug, PartialEq, Eq)]
pub struct MarkRow {
    /// Word 1: the mask, and above it the ignored set.
    pub sets: u64,
    /// Word 2: the object, and above it its kind, the class, and whether the ignored set survives.
    pub object: u64,
    /// Word 3: the group.
    pub group: u64,
}

// The values of bits 32, 34 and 36.
const BIT_32: u64 = 4_294_967_296;

const BIT_34: u64 = 17_179_869_184;

const BIT_36: u64 = 68_719_476_736;

impl MarkRow {
    /// The words of a mark.
    pub fn of(mark: &Mark) -> MarkRow
        ensures sets { result.sets ≡ sets_word mark.now }
        ensures object { result.object ≡ object_word mark.now }
        ensures group { result.group ≡ group_word mark.now }
    {
        MarkRow {
            sets: u64::from(mark.mask) + u64::from(mark.ignored) * BIT_32,
            object: u64::from(mark.object)
                + kind_number(mark.kind) * BIT_32
                + u64::from(mark.class.rank()) * BIT_34
                + u64::from(mark.survives) * BIT_36,
            group: u64::from(mark.group),
        }
    }

    /// The mark that the words tell.
    pub fn mark(self) -> Mark
        ensures { (mark : Mark) → IsMark mark → self.sets ≡ sets_word mark
            → self.object ≡ object_word mark → self.group ≡ group_word mark → result ≡ mark }
    {
        Mark {
            group: (self.group % BIT_32) as u32,
            class: class_of(self.object / BIT_34 % 4),
            object: (self.object % BIT_32) as u32,
            kind: kind_of(self.object / BIT_32 % 4),
            mask: (self.sets % BIT_32) as u32,
            ignored: (self.sets / BIT_32) as u32,
            survives: self.object / BIT_36 % 2 == 1,
        }
    }
}

// The number of a kind.
fn kind_number(kind: Kind) -> u64
    ensures { result ≡ kind_number kind }
{
    match kind {
        Kind::Inode => 0,
        Kind::Mount => 1,
        Kind::Filesystem => 2,
    }
}

// The kind of a number.
fn kind_of(number: u64) -> Kind
    ensures { (kind : Kind) → number ≡ kind_number kind → result ≡ kind }
{
    match number {
        0 => Kind::Inode,
        1 => Kind::Mount,
        _ => Kind::Filesystem,
    }
}

// The class of a rank.
fn class_of(rank: u64) -> Class
    ensures { (class : Class) → rank ≡ rank_of class → result ≡ class }
{
    match rank {
        0 => Class::PreContent,
        1 => Class::Content,
        _ => Class::Notif,
    }
}
