// Which marks a change takes away.
ghost use Rattle.std.specs.Prelude.{◌≡◌};
ghost use Rattle.fan_marks.specs.Selected.{selects};

use super::keys::GroupKey;
use fan_bits::Kind;

/// Which marks a change takes away.
#[derive(Clone, Copy)]
pub(crate) enum Selection {
    /// Those of a group on objects of a kind.
    OfKind { group: u32, kind: Kind },
    /// Those of a group.
    OfGroup { group: u32 },
    /// Those on an object.
    OnObject { object: u32 },
}

impl Selection {
    /// Whether the marks with a key are selected.
    pub(crate) fn selects(self, key: &GroupKey) -> bool
        ensures { result ≡ selects self key.now }
    {
        match self {
            Selection::OfKind { group, kind } => key.group == group && key.kind == kind,
            Selection::OfGroup { group } => key.group == group,
            Selection::OnObject { object } => key.object == object,
        }
    }
}
