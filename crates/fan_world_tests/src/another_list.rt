// The machine over sections that all show one mark, whatever was changed: it goes by them alone.
ghost use Rattle.std.specs.Prelude.{◌≡◌, ◌∷◌, [], IfOk};
ghost use Rattle.fan_bits.specs.Marks.{IsMarkList};

use fan_bits::{Change, Changed, Class, Kind, Mark, Order};
use fan_grace::Section;
use fan_io::NoMemory;
use fan_print::print_reply;
use fan_script::{Line, read_line};
use fan_world::{Machine, Sections, World};
use std::alloc::Global;
use std::test::Fail;

// Sections of which each shows one mark.
#[derive(Drop)]
struct OneMark {
    mark: Mark,
    // How many sections are in.
    inside: u32,
}

impl Sections for OneMark {
    ghost use Rattle.std.specs.Prelude.{◌≡◌, ◌+◌, ◌∷◌, [], refl, length};
    ghost use Rattle.fan_bits.specs.Marks.{IsMarkList};

    ghost inside = { λ it sections. (length sections ≡ it.inside) × IsMarkList (it.mark ∷ []) };

    ghost shows = { λ it section marks. (marks ≡ it.mark ∷ []) × IsMarkList marks };

    ghost honest = { λ it. ⊥ };

    ghost present = { λ it marks. IsMarkList marks };

    ghost entered = { λ old section new. new ≡ record old { inside = old.inside + 1 } };

    ghost is_list = { λ it section marks shown. shown.1 };

    ghost shows_some = { λ it before after section inside. (it.mark ∷ [], (refl, inside.1)) };

    ghost present_list = { λ it marks honest present. present };

    fn enter(&mut self) -> Section {
        self.inside += 1;
        Section { phase: 0, root: 0 }
    }

    fn leave(&mut self, _section: Section) {
        self.inside -= 1;
    }

    fn next(&mut self, _section: &Section, object: u32, after: Order) -> Option<Mark> {
        if self.mark.object == object && after.0 < self.mark.order().0 {
            Some(self.mark)
        } else {
            None
        }
    }

    fn change(&mut self, _change: &Change) -> Result<Changed, NoMemory> {
        Ok(Changed {
            changed: false,
            retired: 0,
        })
    }
}

// Sections that show a mark of group 1, of class Content, on inode 4. It asks for FAN_OPEN_PERM and
// FAN_OPEN.
fn one_mark() -> OneMark
    ensures list { IsMarkList (result.mark ∷ []) }
    ensures nobody { result.inside ≡ 0 }
{
    OneMark {
        mark: Mark {
            group: 1,
            class: Class::Content,
            object: 4,
            kind: Kind::Inode,
            mask: 0x1_0020,
            ignored: 0,
            survives: false,
        },
        inside: 0,
    }
}

// A line, the reply of the machine over that mark, and the reply of the machine over the marks that
// stand: of group 1 there is none, and of group 2 one on inode 5.
const LINES: [[&str; 3]; 15] = [
    ["mkfile /a", "inode 4", "inode 4"],
    ["mkfile /b", "inode 5", "inode 5"],
    ["init 4", "group 1", "group 1"],
    ["init 4", "group 2", "group 2"],
    ["mark 2 1 10000 /b", "ok", "ok"],
    ["begin 1 50 50 open /a", "ok", "ok"],
    ["step 1", "asked 1", "done"],
    ["step 1", "blocked 1", "ESRCH"],
    [
        "read 1 24",
        "bytes 180000000300180000000100000000000000000032000000",
        "EAGAIN",
    ],
    ["write 1 0000000001000000", "ok", "ENOENT"],
    ["step 1", "allowed 1", "ESRCH"],
    ["step 1", "told 1 queued", "ESRCH"],
    ["step 1", "done", "ESRCH"],
    ["begin 2 50 50 open /b", "ok", "ok"],
    ["step 2", "done", "asked 2"],
];

// The reply of a machine to a line; none to a bad one.
fn reply_to<S: Sections>(
    alloc: Global,
    machine: &mut Machine<S>,
    line: &str,
) -> Result<Vec<u8>, Fail> {
    let mut out = Vec::new(alloc);
    let Ok(Line::One(step)) = read_line(alloc, line.as_bytes()) else {
        return Ok(out);
    };
    if machine.steps() < 1_073_741_824 {
        let reply = machine.step(&step)?;
        print_reply(&mut out, &reply)?;
    }
    Ok(out)
}

#[test]
fn an_access_goes_by_what_its_section_shows(rt: HostRuntime) -> Result<(), Fail> {
    let mut machine = Machine::over(rt.alloc(), one_mark())?;
    for [line, wanted, _] in LINES {
        let reply = reply_to(rt.alloc(), &mut machine, line)?;
        assert_eq!(rt; str::from_utf8(&reply), Ok(wanted), "{line}");
    }
    Ok(())
}

#[test]
fn an_access_of_the_world_goes_by_the_marks_that_stand(rt: HostRuntime) -> Result<(), Fail> {
    let mut world = World::new(rt.alloc())?;
    for [line, _, wanted] in LINES {
        let reply = reply_to(rt.alloc(), &mut world, line)?;
        assert_eq!(rt; str::from_utf8(&reply), Ok(wanted), "{line}");
    }
    Ok(())
}
