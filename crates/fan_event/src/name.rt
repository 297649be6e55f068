// The name of an entry in a directory.
ghost use Rattle.std.specs.Prelude.{◌≡◌, IfOk, IsTrue, nat_eq};
ghost use Rattle.std.specs.Cmp.{partial_equiv_from_equiv};
ghost use Rattle.std.specs.Cmp.Lexicographic.{nat_list_eq_equiv, pointwise};
ghost use Rattle.fan_event.specs.Names.{IsName, is_name};

use super::name_bytes::NameBytes;
use fan_io::NoMemory;
use std::alloc::Global;
use std::marker::Model;

/// A name: 1 to 255 bytes, none of them 0. One of at most 14 bytes takes no memory. Contracts see the
/// list of its bytes.
#[derive(Debug, Drop)]
pub struct Name {
    bytes: NameBytes,
}

impl Model for Name {
    ghost use Rattle.std.specs.Prelude.{ℕ, List};
    ghost use Rattle.std.specs.Coded.{coded_list, coded_ℕ};
    ghost use Rattle.fan_event.specs.Names.{IsName};

    ghost Value = { List ℕ };

    ghost coded = { coded_list coded_ℕ };

    ghost use Rattle.fan_event.specs.NameBytes.{IsHeld, bytes_in};

    ghost view = { λ n. bytes_in n.bytes };

    ghost invariant = { λ n. IsHeld n.bytes × IsName (bytes_in n.bytes) };
}

impl Name {
    /// The name with these bytes.
    ///
    /// # Errors
    /// `NoMemory` if no memory was found for a copy of more than 14 of them.
    pub fn of(alloc: Global, bytes: &[u8]) -> Result<Name, NoMemory>
        requires { IsName bytes.now }
        ensures { IfOk result (λ name. name ≡ bytes.now) }
    {
        Ok(Name {
            bytes: NameBytes::of(alloc, bytes)?,
        })
    }

    /// A copy of it.
    ///
    /// # Errors
    /// `NoMemory` if no memory was found for its bytes.
    pub fn copy_in(&self, alloc: Global) -> Result<Name, NoMemory>
        ensures { IfOk result (λ copy. copy ≡ self.now) }
    {
        Name::of(alloc, self.bytes())
    }

    /// It, borrowed.
    pub(crate) fn borrowed(&self) -> NameRef<'_>
        ensures { result ≡ self.now }
    {
        NameRef {
            bytes: self.bytes(),
        }
    }

    /// Its bytes.
    pub fn bytes(&self) -> &[u8]
        ensures value { result.now ≡ self.now }
        ensures whole { IsName self.now }
    {
        self.bytes.as_slice()
    }
}

/// A name that is borrowed. Contracts see the list of its bytes.
#[derive(Debug, Drop)]
pub(crate) struct NameRef<'a> {
    bytes: &'a [u8],
}

impl<'a> Model for NameRef<'a> {
    ghost use Rattle.std.specs.Prelude.{ℕ, List};
    ghost use Rattle.std.specs.Coded.{coded_list, coded_ℕ};
    ghost use Rattle.fan_event.specs.Names.{IsName};

    ghost Value = { List ℕ };

    ghost coded = { coded_list coded_ℕ };

    ghost view = { λ n. n.bytes.now };

    ghost invariant = { λ n. IsName n.bytes.now };
}

impl<'a> NameRef<'a> {
    /// The name with these bytes.
    pub(crate) fn of(bytes: &'a [u8]) -> NameRef<'a>
        requires { IsName bytes.now }
        ensures { result ≡ bytes.now }
    {
        NameRef { bytes }
    }

    /// Its bytes.
    pub(crate) fn bytes(&self) -> &[u8]
        ensures value { result.now ≡ self.now }
        ensures whole { IsName self.now }
    {
        self.bytes
    }
}

/// Whether some bytes are a name.
pub fn is_name(bytes: &[u8]) -> bool
    ensures value { result ≡ is_name bytes.now }
    ensures name { IsTrue result → IsName bytes.now }
{
    !bytes.is_empty() && bytes.len() <= 255 && !bytes.contains(&0)
}

impl PartialEq for Name {
    ghost eq = { pointwise nat_eq };

    ghost laws = { partial_equiv_from_equiv nat_list_eq_equiv };

    fn eq(&self, other: &Name) -> bool {
        self.bytes() == other.bytes()
    }
}

impl Eq for Name {
    ghost laws = { nat_list_eq_equiv };
}
