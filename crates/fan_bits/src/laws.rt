// Laws of bits, changes and interests, each the contract of a function that does nothing.
ghost use Rattle.std.specs.Prelude.{◌≡◌, ◌≢◌, ◌↔◌, ◌++◌, ℕ, List, Some, All, IfSome, filter, map, nat_eq, nat_lt};
ghost use Rattle.std.specs.List.{Contains, IsDistinct};
ghost use Rattle.std.specs.List.Sorted.{IsStrictlyIncreasing};
ghost use Rattle.fan_bits.specs.declared.change.Change.{Change};
ghost use Rattle.fan_bits.specs.declared.change.Change.TheVariants.{Put, Flush, Clear, DropGroup, DropObject};
ghost use Rattle.fan_bits.specs.declared.class.Class.{Class};
ghost use Rattle.fan_bits.specs.declared.kind.Kind.{Kind};
ghost use Rattle.fan_bits.specs.declared.mark.Mark.{Mark};
ghost use Rattle.fan_bits.specs.declared.mark_call.MarkWords.{MarkWords};
ghost use Rattle.fan_bits.specs.declared.place.Happening.{Happening};
ghost use Rattle.fan_bits.specs.Interest.{interest_order, interests, near, wanted};
ghost use Rattle.fan_bits.specs.MarkWords.{access, access_perm, attrib, close_nowrite, close_write, create, delete, delete_self, event_on_child, modify_bit, move_self, moved_from, moved_to, ondir, open_bit, open_exec, open_exec_perm, open_perm_bit, overflow_bit};
ghost use Rattle.fan_bits.specs.Marks.{IsChange, IsMarkList, changed, listed, mark_of, on, order_number, order_of, updated};
ghost use Rattle.fan_bits.specs.Words.{bit, report_dir_fid, report_fid, report_name};

use super::bits::{
    FAN_ACCESS, FAN_ACCESS_PERM, FAN_ATTRIB, FAN_CLOSE_NOWRITE, FAN_CLOSE_WRITE, FAN_CREATE,
    FAN_DELETE, FAN_DELETE_SELF, FAN_EVENT_ON_CHILD, FAN_MODIFY, FAN_MOVE_SELF, FAN_MOVED_FROM,
    FAN_MOVED_TO, FAN_ONDIR, FAN_OPEN, FAN_OPEN_EXEC, FAN_OPEN_EXEC_PERM, FAN_OPEN_PERM,
    FAN_Q_OVERFLOW, FAN_REPORT_DIR_FID, FAN_REPORT_FID, FAN_REPORT_NAME,
};

/// The constants of this crate are the bits with these numbers.
pub fn bits_are_numbered()
    ensures access { FAN_ACCESS ≡ bit access }
    ensures modify { FAN_MODIFY ≡ modify_bit }
    ensures attrib { FAN_ATTRIB ≡ bit attrib }
    ensures close_write { FAN_CLOSE_WRITE ≡ bit close_write }
    ensures close_nowrite { FAN_CLOSE_NOWRITE ≡ bit close_nowrite }
    ensures open { FAN_OPEN ≡ open_bit }
    ensures moved_from { FAN_MOVED_FROM ≡ bit moved_from }
    ensures moved_to { FAN_MOVED_TO ≡ bit moved_to }
    ensures create { FAN_CREATE ≡ bit create }
    ensures delete { FAN_DELETE ≡ bit delete }
    ensures delete_self { FAN_DELETE_SELF ≡ bit delete_self }
    ensures move_self { FAN_MOVE_SELF ≡ bit move_self }
    ensures open_exec { FAN_OPEN_EXEC ≡ bit open_exec }
    ensures open_perm { FAN_OPEN_PERM ≡ open_perm_bit }
    ensures access_perm { FAN_ACCESS_PERM ≡ bit access_perm }
    ensures open_exec_perm { FAN_OPEN_EXEC_PERM ≡ bit open_exec_perm }
    ensures overflow { FAN_Q_OVERFLOW ≡ overflow_bit }
    ensures event_on_child { FAN_EVENT_ON_CHILD ≡ bit event_on_child }
    ensures ondir { FAN_ONDIR ≡ bit ondir }
    ensures fid { FAN_REPORT_FID ≡ bit report_fid }
    ensures dir_fid { FAN_REPORT_DIR_FID ≡ bit report_dir_fid }
    ensures name { FAN_REPORT_NAME ≡ bit report_name }
{}

/// Bits that are put on a mark or taken from it change nothing else of it but whether its ignored
/// set survives.
pub fn a_mark_stays_where_it_is()
    ensures group { (old : Mark) (change : Change) →
        IfSome (updated (Some old) change) (λ new. new.group ≡ old.group) }
    ensures class { (old : Mark) (change : Change) →
        IfSome (updated (Some old) change) (λ new. new.class ≡ old.class) }
    ensures object { (old : Mark) (change : Change) →
        IfSome (updated (Some old) change) (λ new. new.object ≡ old.object) }
    ensures kind { (old : Mark) (change : Change) →
        IfSome (updated (Some old) change) (λ new. new.kind ≡ old.kind) }
{}

/// A change of a list of marks leaves a list of marks.
pub fn a_list_stays_a_list()
    ensures { (marks : List Mark) (change : Change) → IsChange marks change → IsMarkList marks
        → IsMarkList (changed marks change) }
{}

/// A change goes by objects: what becomes of the marks on one depends on these marks alone. A Put
/// gives the mark of its group, on its object, its place among those of the other groups.
pub fn a_change_goes_by_objects()
    ensures put_here { (marks : List Mark) (group : ℕ) (class : Class) (words : MarkWords)
        (object : ℕ) →
        let here = on object marks in
        let order = order_number class group in
        let put = Put group class words object in
        on object (changed marks put)
        ≡ filter (λ mark. nat_lt (order_of mark) order) here
        ++ listed (updated (mark_of here group object) put)
        ++ filter (λ mark. nat_lt order (order_of mark)) here }
    ensures put_elsewhere { (marks : List Mark) (group : ℕ) (class : Class) (words : MarkWords)
        (object other : ℕ) → other ≢ object
        → on other (changed marks (Put group class words object)) ≡ on other marks }
    ensures flush { (marks : List Mark) (object group : ℕ) (kind : Kind) →
        on object (changed marks (Flush group kind))
        ≡ changed (on object marks) (Flush group kind) }
    ensures clear { (marks : List Mark) (object other : ℕ) →
        on object (changed marks (Clear other))
        ≡ changed (on object marks) (Clear other) }
    ensures drop_group { (marks : List Mark) (object group : ℕ) →
        on object (changed marks (DropGroup group))
        ≡ changed (on object marks) (DropGroup group) }
    ensures drop_object { (marks : List Mark) (object other : ℕ) →
        on object (changed marks (DropObject other))
        ≡ changed (on object marks) (DropObject other) }
{}

/// The interests in a happening: in the order in which groups are asked and told, of each group
/// that wants something and of no other, each group once, by the class of its marks and with just
/// the events that it wants.
pub fn interests_are_in_order()
    ensures rising { (marks : List Mark) (happening : Happening) →
        IsStrictlyIncreasing (map interest_order (interests marks happening)) }
    ensures groups { (marks : List Mark) (happening : Happening) (group : ℕ) → IsMarkList marks
        → Contains (map (λ interest. interest.group) (interests marks happening)) group
        ↔ (wanted marks group happening ≢ 0) }
    ensures once { (marks : List Mark) (happening : Happening) → IsMarkList marks
        → IsDistinct nat_eq (map (λ interest. interest.group) (interests marks happening)) }
    ensures class { (marks : List Mark) (happening : Happening) → IsMarkList marks
        → All (λ interest. All (λ mark. mark.group ≡ interest.group → mark.class ≡ interest.class)
        marks) (interests marks happening) }
    ensures bits { (marks : List Mark) (happening : Happening) →
        All (λ interest. interest.bits ≡ wanted marks interest.group happening)
        (interests marks happening) }
{}

/// The interests in a happening depend on the marks on its place and on the parent alone.
pub fn marks_elsewhere_do_not_matter()
    ensures { (marks : List Mark) (happening : Happening) → IsMarkList marks
        → interests (filter (near happening.place) marks) happening ≡ interests marks happening }
{}
