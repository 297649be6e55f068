// How a command of the program ended.
ghost use Rattle.std.specs.Prelude.{◌≡◌};
ghost use Rattle.fan_shell.specs.Status.{code_of};

/// What a command answers, in the order of the program's exit statuses 0 to 9.
#[derive(Clone, Copy, Debug, PartialEq, Eq)]
pub enum Status {
    /// The input was read to its end, and all was done.
    Ok,
    /// A line of the script is not in the grammar; the transcript ends with its number.
    BadLine,
    /// The words are no form of the command line; the usage line was written.
    Usage,
    /// The source failed; nothing was written.
    ReadFault,
    /// The sink failed; a front of the text was written.
    WriteFault,
    /// The source gave more bytes than the command's limit; nothing was written.
    TooLong,
    /// No memory was found; a front of the text was written.
    NoMemory,
    /// The run record breaks a rule.
    NotLegal,
    /// A thread could not be started; nothing was written.
    NoThread,
    /// The bytes are no records.
    BadRecord,
}

impl Status {
    /// The exit status of the program.
    pub fn code(self) -> u8
        ensures { result ≡ code_of self }
    {
        self as u8
    }
}
