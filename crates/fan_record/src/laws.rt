// Laws of records, each the contract of a function that does nothing.
ghost use Rattle.std.specs.Prelude.{◌≡◌, ◌++◌, ℕ, ℤ, pos, List, length};
ghost use Rattle.fan_record.specs.Records.{ReadsRecords, RecordParts, SpellsRecord};
ghost use Rattle.fan_record.specs.Written.{IsWritable, record_bytes};

/// At most one record is spelled at a place.
pub fn one_record_at_most()
    ensures { (bytes : List ℕ) (at : ℕ) (p q : RecordParts) → SpellsRecord bytes at p
        → SpellsRecord bytes at q → p ≡ q }
{}

/// An input has at most one reading: its records from the start on, and the place where none is
/// spelled any more. At its end none is.
pub fn one_reading_of_records()
    ensures { (bytes : List ℕ) (p q : List RecordParts) (m n : ℕ) → ReadsRecords bytes p m
        → ReadsRecords bytes q n → (p ≡ q) × (m ≡ n) }
{}

/// What is written of a record is read again, whatever stands before it and whatever follows it.
pub fn records_are_read_again()
    ensures { (before infos rest : List ℕ) (event_len mask : ℕ) (fd : ℤ) (pid : ℕ)
        → IsWritable event_len mask fd pid infos
        → SpellsRecord (before ++ (record_bytes event_len mask fd pid ++ (infos ++ rest)))
        (length before) (record { mask = mask; fd = fd; pid = pos pid; infos = infos }) }
{}
