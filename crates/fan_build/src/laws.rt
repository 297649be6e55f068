// Laws of changes that are made object by object.
ghost use Rattle.std.specs.Prelude.{◌≡◌, ℕ, List, [], ◌∷◌};
ghost use Rattle.fan_bits.specs.declared.change.Change.{Change};
ghost use Rattle.fan_bits.specs.declared.mark.Mark.{Mark};
ghost use Rattle.fan_bits.specs.Marks.{IsChange, IsMarkList, changed};
ghost use Rattle.fan_build.specs.Objects.{IsNoPut, IsOnObjects, changed_on, changed_on_all};

/// A change that alters marks on some objects alone is made by making it on each of them in turn; a
/// Put alters a mark on one object at most.
pub fn object_by_object()
    ensures all { (marks : List Mark) (change : Change) (objects : List ℕ) → IsMarkList marks
        → IsNoPut change → IsOnObjects marks change objects
        → changed_on_all marks change objects ≡ changed marks change }
    ensures one { (marks : List Mark) (change : Change) (object : ℕ) → IsMarkList marks
        → IsChange marks change → IsOnObjects marks change (object ∷ [])
        → changed_on marks change object ≡ changed marks change }
{}
