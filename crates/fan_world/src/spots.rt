// Spots, by the paths that lead to them.
ghost use Rattle.std.specs.Prelude.{◌≡◌, IfOk};
ghost use Rattle.fan_event.specs.Names.{IsName};
ghost use Rattle.fan_machine.specs.Deeds.{entry_spot, last_name, names_up, second_names, spot_by};

use fan_access::Spot;
use fan_bits::Place;
use fan_event::Name;
use fan_io::{Items, NoMemory};
use fan_mounts::split_last;
use std::alloc::Global;

/// A directory, and the name of an entry of it.
pub(crate) fn entry_spot(alloc: Global, dir: Place, name: &[u8]) -> Result<Spot, NoMemory>
    requires { IsName name.now }
    ensures { IfOk result (λ spot. spot ≡ entry_spot dir name.now) }
{
    Ok(Spot {
        place: dir,
        name: Name::of(alloc, name)?,
    })
}

/// A place, and the name by which a path reaches it.
pub(crate) fn spot_by(alloc: Global, path: &[u8], place: Place) -> Result<Spot, NoMemory>
    requires { IsName (last_name (names_up path.now)) }
    ensures { IfOk result (λ spot. spot ≡ spot_by (names_up path.now) place) }
{
    let name = name_by(path, &place);
    Ok(Spot {
        place,
        name: Name::of(alloc, name)?,
    })
}

// The name by which a path reaches a place: its last one, and `.` for a root.
fn name_by<'a>(path: &'a [u8], place: &Place) -> &'a [u8]
    requires { IsName (last_name (names_up path.now)) }
    ensures value { result.now ≡ (spot_by (names_up path.now) place.now).name }
    ensures whole { IsName result.now }
{
    if place.parent.is_none() {
        return b".";
    }
    last_name(path)
}

/// The last name of a path, and `.` if it has none.
pub(crate) fn last_name(path: &[u8]) -> &[u8]
    ensures { result.now ≡ last_name (names_up path.now) }
{
    match split_last(path) {
        Some((_, name)) => name,
        None => b".",
    }
}

/// The second path of an operation; without one, as no line has it, that of no name.
pub(crate) fn second_path(second: &Option<Items<u8>>) -> &[u8]
    ensures { names_up result.now ≡ second_names second.now }
{
    match second {
        Some(path) => path.as_slice(),
        None => &[],
    }
}

/// Some spots, in a vector.
pub(crate) fn spots_of<const N: usize>(
    alloc: Global,
    spots: [Spot; N],
) -> Result<Vec<Spot>, NoMemory>
    ensures { IfOk result (λ all. all.items ≡ spots.entry) }
{
    Ok(Vec::from_array(alloc, spots)?)
}
