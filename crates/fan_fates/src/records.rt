// What the records of entries say.
ghost use Rattle.std.specs.Prelude.{◌≡◌, ℕ, true, List, ◌++◌, All, map};
ghost use Rattle.fan_bits.specs.MarkWords.{overflow_bit};
ghost use Rattle.fan_fates.specs.Bits.{AreRecords, HasBitsIn, mask_of};
ghost use Rattle.fan_fates.specs.Fates.{left, told};
ghost use Rattle.fan_fates.specs.Steps.{deeds_by, deeds_in, queue_in};
ghost use Rattle.fan_laws.specs.Whole.{numbers_in};
ghost use Rattle.fan_queue.specs.Queue.{is_lost};
ghost use Rattle.fan_machine.specs.Next.{after, next};
ghost use Rattle.fan_machine.specs.World.{initial_world};
ghost use Rattle.fan_script.specs.declared.step.Step.{Step};

use fan_script::{Reply, Step};

/// An entry that left a queue, or is still there, has the bits of all events that were queued as it
/// or merged into it, or covers lost events and has no other (`bits`). A read gives the records of
/// the entries that leave by it, in order, each with those bits and the process of its events, and
/// with their object: by a descriptor, or by handles, beside which no descriptor stands and FAN_ONDIR
/// tells of a directory (`records`). The lost entry's has FAN_Q_OVERFLOW alone (`overflow_bits`).
pub fn records_have_the_bits_told()
    ensures bits { (steps : List Step) (group : ℕ) →
        let deeds = deeds_in group initial_world steps in
        All (HasBitsIn deeds) (left deeds ++ queue_in (after initial_world steps) group) }
    ensures records { (before : List Step) (group size : ℕ) (bytes : List ℕ) →
        let world = after initial_world before in
        let deeds = deeds_in group initial_world before in
        let read = left (deeds_by world (Step.Read group size) group) in
        (next world (Step.Read group size)).reply ≡ Reply.Bytes bytes →
        AreRecords (map (λ number. told deeds number) (numbers_in read)) bytes }
    ensures overflow_bits { (steps : List Step) (group : ℕ) →
        let deeds = deeds_in group initial_world steps in
        All (λ entry. is_lost entry ≡ true → mask_of (told deeds entry.number) ≡ overflow_bit)
        (left deeds ++ queue_in (after initial_world steps) group) }
{}
