// The objects that were seen.
ghost use Rattle.std.specs.Prelude.{◌≡◌, ◌<◌, ◌==◌, ◌||◌, ℕ, false, IfOk, length};
ghost use Rattle.fan_seen.specs.Seen.{has};

use fan_io::NoMemory;
use std::alloc::Global;
use std::marker::Model;

/// How many numbers objects may have: from 0 to 65,535.
const NUMBERS: usize = 65_536;

/// A set of objects, to which objects are only added.
#[derive(Drop)]
pub struct Seen {
    flags: Vec<bool>,
}

impl Model for Seen {
    ghost use Rattle.std.specs.Prelude.{◌≡◌, Bool, List, length};

    ghost Value = { List Bool };

    ghost view = { λ s. s.flags.items };

    ghost invariant = { λ s. length s.flags.items ≡ 65536 };
}

// So many flags that are not set.
fn unset(alloc: Global, count: usize) -> Result<Vec<bool>, NoMemory>
    ensures count { IfOk result (λ flags. length flags.items ≡ count) }
    ensures none { IfOk result (λ flags. (object : ℕ) → has flags.items object ≡ false) }
{
    Ok(vec![in alloc; false; count]?)
}

impl Seen {
    /// No objects. Only this allocates, a byte for each number that an object may have.
    ///
    /// # Errors
    /// `NoMemory` if there was none.
    pub fn new(alloc: Global) -> Result<Seen, NoMemory>
        ensures { IfOk result (λ seen. (object : ℕ) → has seen object ≡ false) }
    {
        Ok(Seen {
            flags: unset(alloc, NUMBERS)?,
        })
    }

    /// Whether an object was added.
    pub fn has(&self, object: u32) -> bool
        ensures { result ≡ has self.now object }
    {
        self.flags.get(object as usize).copied().unwrap_or(false)
    }

    /// Adds an object.
    pub fn add(&mut self, object: u32)
        requires { object < 65536 }
        ensures { (other : ℕ) → has self.new other ≡ (object == other || has self.old other) }
    {
        self.flags[object as usize] = true;
    }
}
