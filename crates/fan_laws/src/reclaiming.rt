// Laws of retired marks.
ghost use Rattle.std.specs.Prelude.{◌≡◌, ◌≢◌, ◌<◌, ◌⊎◌, ℕ, List, [], ◌++◌, All, Some, None, length};
ghost use Rattle.fan_access.specs.Access.{AccessState};
ghost use Rattle.fan_bits.specs.declared.change.Change.TheVariants.{DropObject};
ghost use Rattle.fan_machine.specs.Accesses.{access_of};
ghost use Rattle.fan_machine.specs.Next.{after, next};
ghost use Rattle.fan_machine.specs.World.{Batch, RetiredMark, WorldState, initial_world};
ghost use Rattle.fan_laws.specs.InOrder.{Begin, begun_world};
ghost use Rattle.fan_laws.specs.Reclaiming.{marks_in, pending, reclaimed_in, reclaims, retirements};
ghost use Rattle.fan_script.specs.declared.step.Step.{Step};
ghost use Rattle.fan_tree.specs.Tree.{inode_of};

use fan_script::{OpWord, Reply, Step};

/// Each mark that a step removes or replaces is reclaimed once at most, in the order in which marks
/// were retired, and is pending until then (`once`). `grace` counts just the marks that it reclaims
/// (`counted`); each of them was retired before any access that is open then began (`free`). What a
/// `grace` reclaims is the batch that was under way, and never what waits for a batch or what it
/// starts itself (`not_by_its_start`). Accesses that began since a batch was under way don't hold
/// it up: once no other is open, a `grace` reclaims it (`later`). Where no access is open, two
/// `grace` in a row leave no mark pending (`all`).
pub fn marks_are_reclaimed_once()
    ensures once { (steps : List Step) →
        retirements initial_world steps
        ≡ reclaims initial_world steps ++ pending (after initial_world steps) }
    ensures counted { (world : WorldState) →
        (next world Step.Grace).reply ≡ Reply.Reclaimed (length (reclaimed_in world Step.Grace)) }
    ensures free { (steps : List Step) (number : ℕ) (access : AccessState) →
        let world = after initial_world steps in
        access_of world number ≡ Some access →
        All (λ retired. retired.last_access < number) (reclaimed_in world Step.Grace) }
    ensures not_by_its_start { (world : WorldState) →
        (held : List RetiredMark)
        × (reclaimed_in world Step.Grace ++ held ≡ marks_in world.batch)
        × (pending (next world Step.Grace).world ≡ held ++ world.waiting) }
    ensures later { (before during : List Step) (batch : Batch) →
        let old = after initial_world before in
        let world = after old during in
        old.batch ≡ Some batch → world.batch ≡ Some batch →
        ((number : ℕ) (access : AccessState) → access_of world number ≡ Some access →
        old.last_access < number) →
        reclaimed_in world Step.Grace ≡ batch.retired }
    ensures all { (world : WorldState) →
        let first = (next world Step.Grace).world in
        let second = (next first Step.Grace).world in
        world.accesses ≡ [] → pending second ≡ [] }
{}

/// What `unlink` or `rmdir` removes is in the tree no more, and no mark is on it.
pub fn removals_take_their_marks()
    ensures { (world : WorldState) (number : ℕ) (begin : Begin world number) →
        (begin.word ≡ OpWord.Unlinks) ⊎ (begin.word ≡ OpWord.RemovesDir) →
        let new = begun_world world number begin in
        (removed : ℕ)
        × (begin.deed.last ≡ Some (DropObject removed))
        × (inode_of new.tree removed ≡ None)
        × All (λ mark. mark.object ≢ removed) new.marks }
{}
