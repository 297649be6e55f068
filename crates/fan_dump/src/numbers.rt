// Numbers and bytes at the end of what is to be written.
ghost use Rattle.std.specs.Prelude.{◌≡◌, ◌++◌, OnOk};
ghost use Rattle.std.specs.Fmt.{signed_decimal};
ghost use Rattle.fan_dump.specs.Texts.{bytes_text};
ghost use Rattle.fan_text.specs.Spelling.{hex};

use fan_io::NoMemory;
use fan_print::print_text;
use fan_text::write_bytes;
use itoa::Buffer;
use std::alloc::Global;

// Puts a number at the end, in hexadecimal digits.
pub(crate) fn print_hex(alloc: Global, out: &mut Vec<u8>, number: u64) -> Result<(), NoMemory>
    ensures { OnOk result (out.new.items ≡ out.old.items ++ hex number) }
{
    let digits = format!(in alloc; "{number:x}")?;
    print_text(out, &digits)
}

// Puts a number at the end, in decimal and with its sign, where it has one.
pub(crate) fn print_signed(out: &mut Vec<u8>, number: i32) -> Result<(), NoMemory>
    ensures { OnOk result (out.new.items ≡ out.old.items ++ signed_decimal number) }
{
    let mut buffer = Buffer::new();
    print_text(out, buffer.format(number))
}

// Puts bytes at the end, or a dash where there is none.
pub(crate) fn print_bytes(out: &mut Vec<u8>, bytes: &[u8]) -> Result<(), NoMemory>
    ensures { OnOk result (out.new.items ≡ out.old.items ++ bytes_text bytes.now) }
{
    match bytes {
        [] => print_text(out, "-"),
        some => write_bytes(out, some),
    }
}
