// The classes of groups, in the order in which groups are asked and told: fanotify_init(2).
ghost use Rattle.std.specs.Prelude.{◌≡◌};
ghost use Rattle.fan_bits.specs.Words.{rank_of};

/// The class of a group: fanotify_init(2).
#[derive(Clone, Copy, Debug, PartialEq, Eq, PartialOrd, Ord)]
pub enum Class {
    /// FAN_CLASS_PRE_CONTENT: asked first, before a file has its final content.
    PreContent,
    /// FAN_CLASS_CONTENT: asked next.
    Content,
    /// FAN_CLASS_NOTIF: never asked, and told last.
    Notif,
}

impl Class {
    /// The rank of the class in the order in which groups are asked and told, from 0.
    pub fn rank(self) -> u32
        ensures { result ≡ rank_of self }
    {
        match self {
            Class::PreContent => 0,
            Class::Content => 1,
            Class::Notif => 2,
        }
    }
}
