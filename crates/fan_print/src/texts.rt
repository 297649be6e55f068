// Texts and numbers at the end of what is to be written.
ghost use Rattle.std.specs.Prelude.{◌≡◌, ◌++◌, OnErr, OnOk};
ghost use Rattle.std.specs.Fmt.{decimal};

use fan_io::NoMemory;
use itoa::Buffer;

/// Puts a text at the end. Where memory runs out, nothing is put.
pub fn print_text(out: &mut Vec<u8>, text: &str) -> Result<(), NoMemory>
    ensures ok { OnOk result (out.new.items ≡ out.old.items ++ text.now) }
    ensures err { OnErr result (out.new.items ≡ out.old.items) }
{
    out.extend_from_slice(text.as_bytes())?;
    Ok(())
}

/// Puts a number at the end, as a decimal without leading zeros. Where memory runs out, nothing is put.
pub fn print_decimal(out: &mut Vec<u8>, number: u64) -> Result<(), NoMemory>
    ensures ok { OnOk result (out.new.items ≡ out.old.items ++ decimal number) }
    ensures err { OnErr result (out.new.items ≡ out.old.items) }
{
    let mut buffer = Buffer::new();
    print_text(out, buffer.format(number))
}
