// The marks that a section shows, as an access meets them.
ghost use Rattle.std.specs.Prelude.{◌≡◌, ◌≤◌, ◌^◌, List, All, IfOk, OnErr};
ghost use Rattle.fan_access.specs.Access.{AccessState, access_step};
ghost use Rattle.fan_access.specs.Kept.{IsAccess, IsStepped};
ghost use Rattle.fan_bits.specs.declared.mark.Mark.{Mark};
ghost use Rattle.fan_listener.specs.Groups.{IsCalledOnce};
ghost use Rattle.fan_world.specs.Sections.{IsThere};

use super::sections::Sections;
use fan_access::{Access, StepOutcome};
use fan_bits::{Connectors, Mark, Order};
use fan_grace::Section;
use fan_groups::Groups;
use fan_io::NoMemory;
use std::marker::{Brand, PhantomData};

/// What is known of a table before and after an access looks at its marks, for the proof alone: a
/// call picks it.
pub(crate) trait Known<S> {
    ghost use Rattle.std.specs.Borrow.{MutBor};

    ghost known: { MutBor S → Type 0 };
}

impl<S> Known<S> for Brand {
    ghost known = { λ _. Unit {0} };
}

/// A section of a table, by which an access goes.
#[derive(Drop)]
pub(crate) struct Shown<'a, S: Sections, K: Known<S>> {
    sections: &'a mut S,
    section: Section,
    of: PhantomData<K>,
}

impl<'a, S: Sections, K: Known<S>> Connectors for Shown<'a, S, K> {
    ghost shows = { λ it marks. S.shows it.sections.now it.section marks × K.known it.sections
        × IsThere S.inside it.sections.now it.section };

    ghost is_list = { λ it marks shown. S.is_list it.sections.now it.section marks shown.0 };

    fn next(&mut self, object: u32, after: Order) -> Option<Mark> {
        self.sections.next(&self.section, object, after)
    }
}

/// Lets an access do its next single step by the marks that a section shows. The step itself
/// allocates nothing; `NoMemory` comes from the listeners, and changes nothing.
pub(crate) fn step_by<S: Sections>(
    sections: &mut S,
    section: Section,
    access: &mut Access,
    groups: &mut Groups,
) -> Result<StepOutcome, NoMemory>
    requires there { IsThere S.inside sections.old section }
    requires entries { All (λ listener. listener.next_entry ≤ 2 ^ 31) groups.old }
    ensures ok { IfOk result (λ outcome. (marks : List Mark) (state : AccessState)
        → S.shows sections.old section marks → IsAccess marks access.old state
        → IsStepped marks outcome groups.new access.new (access_step groups.old state)) }
    ensures calls { IsCalledOnce groups.old groups.new }
    ensures same { sections.new ≡ sections.old }
    ensures same_spots { access.new.spots ≡ access.old.spots }
    ensures err { OnErr result (access.new ≡ access.old) }
    ensures groups { OnErr result (groups.new ≡ groups.old) }
{
    let mut shown = Shown::<S, Brand> {
        sections,
        section,
        of: PhantomData,
    };
    step_shown(&mut shown, access, groups)
}

// The same, by a section that is at hand. What is known of its table stays.
fn step_shown<S: Sections, K: Known<S>>(
    shown: &mut Shown<S, K>,
    access: &mut Access,
    groups: &mut Groups,
) -> Result<StepOutcome, NoMemory>
    requires known { K.known shown.old.sections }
    requires there { IsThere S.inside shown.old.sections.now shown.old.section }
    requires entries { All (λ listener. listener.next_entry ≤ 2 ^ 31) groups.old }
    ensures ok { IfOk result (λ outcome. (marks : List Mark) (state : AccessState)
        → S.shows shown.old.sections.now shown.old.section marks → IsAccess marks access.old state
        → IsStepped marks outcome groups.new access.new (access_step groups.old state)) }
    ensures calls { IsCalledOnce groups.old groups.new }
    ensures known { K.known shown.new.sections }
    ensures same_spots { access.new.spots ≡ access.old.spots }
    ensures err { OnErr result (access.new ≡ access.old) }
    ensures groups { OnErr result (groups.new ≡ groups.old) }
{
    access.step(shown, groups)
}
