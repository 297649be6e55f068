// Why a step is not done.
use fan_bits::Errno;
use fan_io::NoMemory;
use fan_listener::ReadRefused;

/// Why a step is not done. Nothing changed.
#[derive(Clone, Copy, Debug, PartialEq, Eq)]
pub(crate) enum Refused {
    /// It is refused with this error.
    No(Errno),
    /// No memory was found.
    NoMemory,
}

impl From<Errno> for Refused {
    ghost use Rattle.std.specs.Prelude.{◌≡◌};
    ghost use Rattle.fan_world.specs.declared.refused.Refused.TheVariants.{No};

    ghost from_gives = { λ errno e. e ≡ No errno };

    fn from(errno: Errno) -> Refused {
        Refused::No(errno)
    }
}

impl From<NoMemory> for Refused {
    ghost use Rattle.std.specs.Prelude.{◌≡◌};
    ghost use Rattle.fan_world.specs.declared.refused.Refused.TheVariants.{NoMemory};

    ghost from_gives = { λ _ e. e ≡ NoMemory };

    fn from(_: NoMemory) -> Refused {
        Refused::NoMemory
    }
}

impl From<ReadRefused> for Refused {
    ghost use Rattle.std.specs.Prelude.{◌≡◌};
    ghost use Rattle.fan_listener.specs.Refusals.{read_errno};
    ghost use Rattle.fan_world.specs.Done.{read_refusal};

    ghost from_gives = { λ why e. e ≡ read_refusal (read_errno why) };

    fn from(why: ReadRefused) -> Refused {
        match why.errno() {
            Some(errno) => Refused::No(errno),
            None => Refused::NoMemory,
        }
    }
}
