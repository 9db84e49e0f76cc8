// The bytes of numbers and values in a file: little-endian, signed values in two's complement. Nothing here knows of ranges.
#![tactic(auto)]

ghost use Rattle.std.specs.Prelude.{◌≡◌, ◌+◌, ◌≤◌, length};
ghost use Rattle.algebra.specs.Table.{laid};
ghost use Rattle.rules.specs.Bytes.{bytes_of, value_bytes, complement, number_at, value_at};

// The number of two bytes.
pub fn u16_at(file: &[u8], at: usize) -> u16
    requires { at + 2 ≤ length file.now }
    ensures { result ≡ number_at 2 file.now at }
{
    u16::from_le_bytes([file[at], file[at + 1]])
}

// The 64 bits of a signed number.
pub fn to_bits(z: i64) -> u64
    ensures { result ≡ complement 8 z }
{
    z.cast_unsigned()
}

// The value of eight bytes.
pub fn value_at(file: &[u8], at: usize) -> i64
    requires { at + 8 ≤ length file.now }
    ensures { result ≡ value_at file.now at }
{
    let mut bytes = [0; 8];
    bytes.copy_from_slice(&file[at..at + 8]);
    i64::from_le_bytes(bytes)
}

pub fn put_u16(output: &mut [u8], at: usize, v: u16)
    requires { at + 2 ≤ length output.old }
    ensures { output.new ≡ laid at (bytes_of 2 v) output.old }
{
    output[at..at + 2].copy_from_slice(&v.to_le_bytes());
}

pub fn put_value(output: &mut [u8], at: usize, z: i64)
    requires { at + 8 ≤ length output.old }
    ensures { output.new ≡ laid at (value_bytes z) output.old }
{
    output[at..at + 8].copy_from_slice(&to_bits(z).to_le_bytes());
}
