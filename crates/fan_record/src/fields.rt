// Numbers of more than one byte, each at its place in some bytes.
ghost use Rattle.std.specs.Prelude.{◌≡◌, ◌+◌, ◌≤◌, length};
ghost use Rattle.fan_record.specs.Fields.{u16_at, u32_at, u64_at, i32_at};

use byteorder::{ByteOrder, LittleEndian};

// The number of two bytes at a place.
pub(crate) fn u16_at(bytes: &[u8], place: usize) -> u16
    requires { place + 2 ≤ length bytes.now }
    ensures { result ≡ u16_at place bytes.now }
{
    LittleEndian::read_u16(&bytes[place..])
}

// The number of four bytes at a place.
pub(crate) fn u32_at(bytes: &[u8], place: usize) -> u32
    requires { place + 4 ≤ length bytes.now }
    ensures { result ≡ u32_at place bytes.now }
{
    LittleEndian::read_u32(&bytes[place..])
}

// The number of eight bytes at a place.
pub(crate) fn u64_at(bytes: &[u8], place: usize) -> u64
    requires { place + 8 ≤ length bytes.now }
    ensures { result ≡ u64_at place bytes.now }
{
    LittleEndian::read_u64(&bytes[place..])
}

// The signed number of four bytes at a place.
pub(crate) fn i32_at(bytes: &[u8], place: usize) -> i32
    requires { place + 4 ≤ length bytes.now }
    ensures { result ≡ i32_at place bytes.now }
{
    LittleEndian::read_i32(&bytes[place..])
}
