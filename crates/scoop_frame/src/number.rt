//! Numbers in bytes, big endian, by the place of their first byte.

ghost use Rattle.std.specs.Prelude.{◌≡◌, ◌≤◌, ◌+◌, length};
ghost use Rattle.std.specs.Int.{w16, w32, w64, to_be_bytes};
ghost use Rattle.byteorder.specs.Endian.{big_from};
ghost use Rattle.scoop_frame.specs.Buffer.{overwritten};

use byteorder::{BigEndian, ByteOrder};

/// The number in the two bytes from this place on.
pub fn u16_at(bytes: &[u8], at: usize) -> u16
    requires { at + 2 ≤ length bytes.now }
    ensures { result ≡ big_from at 2 bytes.now }
{
    BigEndian::read_u16(&bytes[at..])
}

/// The number in the four bytes from this place on.
pub fn u32_at(bytes: &[u8], at: usize) -> u32
    requires { at + 4 ≤ length bytes.now }
    ensures { result ≡ big_from at 4 bytes.now }
{
    BigEndian::read_u32(&bytes[at..])
}

/// The number in the eight bytes from this place on.
pub fn u64_at(bytes: &[u8], at: usize) -> u64
    requires { at + 8 ≤ length bytes.now }
    ensures { result ≡ big_from at 8 bytes.now }
{
    BigEndian::read_u64(&bytes[at..])
}

/// Writes the number into the two bytes from this place on.
pub fn put_u16(out: &mut [u8], at: usize, number: u16)
    requires { at + 2 ≤ length out.old }
    ensures { out.new ≡ overwritten at (to_be_bytes w16 number) out.old }
{
    BigEndian::write_u16(&mut out[at..], number);
}

/// Writes the number into the four bytes from this place on.
pub fn put_u32(out: &mut [u8], at: usize, number: u32)
    requires { at + 4 ≤ length out.old }
    ensures { out.new ≡ overwritten at (to_be_bytes w32 number) out.old }
{
    BigEndian::write_u32(&mut out[at..], number);
}

/// Writes the number into the eight bytes from this place on.
pub fn put_u64(out: &mut [u8], at: usize, number: u64)
    requires { at + 8 ≤ length out.old }
    ensures { out.new ≡ overwritten at (to_be_bytes w64 number) out.old }
{
    BigEndian::write_u64(&mut out[at..], number);
}
