// The forms of a line: a name, and the fields behind it.
ghost use Rattle.std.specs.Prelude.{◌≡◌};
ghost use Rattle.fan_script.specs.Reading.{Gives, form_word, form_named, fields_at, named_at, bare_at};

use crate::accesses::{begin, run, step};
use crate::groups::{close, init, limit, mark, read, write};
use crate::line::{Line, LineRefused};
use crate::step::Step;
use crate::tree::{mkdir, mkfile, mount, umount};
use std::alloc::Global;

// A form that has fields.
#[derive(Clone, Copy, Debug, PartialEq, Eq)]
pub(crate) enum Form {
    MkFile,
    MkDir,
    Mount,
    Umount,
    Limit,
    Init,
    Mark,
    Begin,
    Advance,
    Run,
    Read,
    Write,
    Close,
}

// The forms that have fields, in the order in which a word is compared with their names.
const FORMS: [Form; 13] = [
    Form::MkFile,
    Form::MkDir,
    Form::Mount,
    Form::Umount,
    Form::Limit,
    Form::Init,
    Form::Mark,
    Form::Begin,
    Form::Advance,
    Form::Run,
    Form::Read,
    Form::Write,
    Form::Close,
];

impl Form {
    // The first word of the line.
    fn word(self) -> &'static [u8]
        ensures { result.now ≡ form_word self }
    {
        match self {
            Form::MkFile => b"mkfile",
            Form::MkDir => b"mkdir",
            Form::Mount => b"mount",
            Form::Umount => b"umount",
            Form::Limit => b"limit",
            Form::Init => b"init",
            Form::Mark => b"mark",
            Form::Begin => b"begin",
            Form::Advance => b"step",
            Form::Run => b"run",
            Form::Read => b"read",
            Form::Write => b"write",
            Form::Close => b"close",
        }
    }
}

// The form that a word names.
#[tactic(auto, unfolding(crate::specs::Reading::form_named))]
fn form_named(word: &[u8]) -> Option<Form>
    ensures { result ≡ form_named word.now }
{
    FORMS.iter().copied().find(|form| form.word() == word)
}

// The line of this form with these fields.
fn read_fields(alloc: Global, form: Form, fields: &[u8]) -> Result<Line, LineRefused>
    ensures { Gives (λ line. line) result (fields_at form fields.now) }
{
    match form {
        Form::MkFile => mkfile(alloc, fields),
        Form::MkDir => mkdir(alloc, fields),
        Form::Mount => mount(alloc, fields),
        Form::Umount => umount(alloc, fields),
        Form::Limit => limit(fields),
        Form::Init => init(fields),
        Form::Mark => mark(alloc, fields),
        Form::Begin => begin(alloc, fields),
        Form::Advance => step(fields),
        Form::Run => run(fields),
        Form::Read => read(fields),
        Form::Write => write(alloc, fields),
        Form::Close => close(fields),
    }
}

// The line with this first word and these fields behind it.
#[tactic(auto, unfolding(crate::specs::Reading::named_at))]
pub(crate) fn named(alloc: Global, name: &[u8], fields: &[u8]) -> Result<Line, LineRefused>
    ensures { Gives (λ line. line) result (named_at name.now fields.now) }
{
    let form = form_named(name).ok_or(LineRefused::BadLine)?;
    read_fields(alloc, form, fields)
}

// The line that is its name alone.
#[tactic(auto, unfolding(crate::specs::Reading::bare_at))]
pub(crate) fn bare(word: &[u8]) -> Result<Line, LineRefused>
    ensures { Gives (λ line. line) result (bare_at word.now) }
{
    if word == b"mkfs".as_slice() {
        return Ok(Line::One(Step::MkFs));
    }
    if word == b"grace".as_slice() {
        return Ok(Line::One(Step::Grace));
    }
    Err(LineRefused::BadLine)
}
