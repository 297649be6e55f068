// The listeners of all groups, as an access meets them.
ghost use Rattle.std.specs.Prelude.{◌≡◌, ◌≤◌, ◌^◌, ℕ, List, true, false, IfOk, IfSome, OnErr};
ghost use Rattle.fan_event.specs.Events.{event_for};
ghost use Rattle.fan_event.specs.Names.{IsName};
ghost use Rattle.fan_listener.specs.Groups.{answer_from, listener_at, put_to};
ghost use Rattle.fan_listener.specs.ListenerState.{ListenerState};

use fan_bits::Happening;
use fan_io::NoMemory;
use fan_listener::{Answer, Put};

/// The listeners of all groups. A group that is not there counts as closed.
pub trait Listeners {
    /// The listener of each group, from group 1 on, closed ones among them.
    ghost groups: { Self → List ListenerState };

    /// Puts a permission event on the queue of a group: these bits of a happening, by a process and
    /// a thread of it, at an object that was reached by a name. Nothing changes on `NoMemory`.
    fn ask(
        &mut self,
        group: u32,
        happening: &Happening,
        name: &[u8],
        bits: u32,
        pid: u32,
        tid: u32,
    ) -> Result<Put, NoMemory>
        requires name { IsName name.now }
        requires entries { IfSome (listener_at (groups self.old) group)
            (λ listener. listener.next_entry ≤ 2 ^ 31) }
        ensures ok { IfOk result (λ put. (put, groups self.new) ≡ put_to (groups self.old) group
            (λ flags. event_for flags happening.now name.now bits pid tid true)) }
        ensures err { OnErr result (groups self.new ≡ groups self.old) };

    /// Puts an event that needs no answer on the queue of a group, as `ask` does.
    fn tell(
        &mut self,
        group: u32,
        happening: &Happening,
        name: &[u8],
        bits: u32,
        pid: u32,
        tid: u32,
    ) -> Result<Put, NoMemory>
        requires name { IsName name.now }
        requires entries { IfSome (listener_at (groups self.old) group)
            (λ listener. listener.next_entry ≤ 2 ^ 31) }
        ensures ok { IfOk result (λ put. (put, groups self.new) ≡ put_to (groups self.old) group
            (λ flags. event_for flags happening.now name.now bits pid tid false)) }
        ensures err { OnErr result (groups self.new ≡ groups self.old) };

    /// The answer of a group to one of its entries. One other than `Waiting` is taken by this call.
    fn answer(&mut self, group: u32, entry: u64) -> Answer
        ensures { (result, groups self.new) ≡ answer_from (groups self.old) group entry };
}
