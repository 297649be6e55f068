// Laws of information records, each the contract of a function that does nothing.
ghost use Rattle.std.specs.Prelude.{◌≡◌, ◌+◌, ◌^◌, ◌<◌, ◌++◌, ℕ, ℤ, pos, List, length, FitsSigned};
ghost use Rattle.std.specs.Int.{w32};
ghost use Rattle.fan_event.specs.declared.target.Target.{Target};
ghost use Rattle.fan_fid.specs.Again.{IsWritable, target_parts};
ghost use Rattle.fan_fid.specs.Infos.{InfoParts, ReadsInfos, SpellsInfo, SpellsInfos};
ghost use Rattle.fan_fid.specs.Written.{infos_of};
ghost use Rattle.fan_record.specs.Infos.{AreInfos};
ghost use Rattle.fan_record.specs.Records.{SpellsRecord};
ghost use Rattle.fan_record.specs.Written.{record_bytes};

use fan_record::records_are_read_again;

/// At most one information record is spelled at a place.
pub fn one_info_at_most()
    ensures { (bytes : List ℕ) (at : ℕ) (p q : InfoParts) → SpellsInfo bytes at p
        → SpellsInfo bytes at q → p ≡ q }
{}

/// An input has at most one reading: its information records from the start on, and the place where
/// none is spelled any more. At its end none is.
pub fn one_reading_of_infos()
    ensures { (bytes : List ℕ) (p q : List InfoParts) (m n : ℕ) → ReadsInfos bytes p m
        → ReadsInfos bytes q n → (p ≡ q) × (m ≡ n) }
{}

/// What is written of an event's object is read again, whatever stands before it and whatever follows
/// it.
pub fn infos_are_read_again()
    ensures { (before rest : List ℕ) (target : Target) → IsWritable target
        → SpellsInfos (before ++ (infos_of target ++ rest)) (length before)
        (length before + length (infos_of target)) (target_parts target) }
{}

/// What is written of an event's object are information records, so it can stand in a record.
pub fn infos_fill_a_record()
    ensures { (target : Target) → IsWritable target → AreInfos (infos_of target) }
{}

/// A record is read again that is written with the information records of an event's object behind it,
/// whatever stands before it and whatever follows it.
pub fn events_are_read_again()
    ensures { (before rest : List ℕ) (target : Target) (mask : ℕ) (fd : ℤ) (pid : ℕ)
        → IsWritable target → mask < 2 ^ 64 → FitsSigned w32 fd → pid < 2 ^ 31
        → let infos = infos_of target in
        SpellsRecord
        (before ++ (record_bytes (24 + length infos) mask fd pid ++ (infos ++ rest)))
        (length before)
        (record { mask = mask; fd = fd; pid = pos pid; infos = infos }) }
{
    records_are_read_again();
}
