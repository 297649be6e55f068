// Where an operation is done.
use fan_bits::Place;
use fan_event::Name;

/// A place, and a name there: for an event of a directory entry the directory and the name of the
/// entry, else the object and the name by which it was reached, which is `.` for a root.
#[derive(Debug, PartialEq, Eq, Drop)]
pub struct Spot {
    /// The place.
    pub place: Place,
    /// The name.
    pub name: Name,
}
