// The words of operations.
ghost use Rattle.std.specs.Prelude.{◌≡◌};
ghost use Rattle.fan_script.specs.Lines.{op_word, takes_second};
ghost use Rattle.fan_script.specs.Reading.{op_at};

use crate::step::OpWord;

// The operations, in the order in which a word is compared with theirs.
const OPS: [OpWord; 12] = [
    OpWord::Opens,
    OpWord::Execs,
    OpWord::Reads,
    OpWord::Writes,
    OpWord::ClosesWrite,
    OpWord::ClosesRead,
    OpWord::Attribs,
    OpWord::Creates,
    OpWord::MakesDir,
    OpWord::Unlinks,
    OpWord::RemovesDir,
    OpWord::Renames,
];

impl OpWord {
    // The word of the operation.
    fn word(self) -> &'static [u8]
        ensures { result.now ≡ op_word self }
    {
        match self {
            OpWord::Opens => b"open",
            OpWord::Execs => b"exec",
            OpWord::Reads => b"read",
            OpWord::Writes => b"write",
            OpWord::ClosesWrite => b"closew",
            OpWord::ClosesRead => b"closer",
            OpWord::Attribs => b"attrib",
            OpWord::Creates => b"create",
            OpWord::MakesDir => b"mkdir",
            OpWord::Unlinks => b"unlink",
            OpWord::RemovesDir => b"rmdir",
            OpWord::Renames => b"rename",
        }
    }

    /// Whether a `begin` of the operation has a second path.
    pub fn takes_second(self) -> bool
        ensures { result ≡ takes_second self }
    {
        matches!(self, OpWord::Renames)
    }
}

// The operation that a word names.
#[tactic(auto, unfolding(crate::specs::Reading::op_at))]
pub(crate) fn op_named(word: &[u8]) -> Option<OpWord>
    ensures { result ≡ op_at word.now }
{
    OPS.iter().copied().find(|op| op.word() == word)
}
