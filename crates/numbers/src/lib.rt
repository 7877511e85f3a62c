// Numbers and the big-endian bytes that hold them: reads and writes of 2, 4 and 8 bytes, a copy, ceiling division.
#![tactic(auto)]

ghost use Rattle.std.specs.Prelude.{◌≡◌, ◌+◌, ◌-◌, ◌≤◌, ◌<◌, length};
ghost use Rattle.numbers.specs.Bytes.{be, bytes_of, put};
ghost use Rattle.numbers.specs.Ceiling.{ceil_div};

pub fn read_u16(s: &[u8], at: usize) -> u16
    requires { at + 2 ≤ length s.now }
    ensures { result ≡ be 2 s.now at }
{
    u16::from_be_bytes([s[at], s[at + 1]])
}

// By halves, as the wider one: with all its bytes in one `from_be_bytes` the loops over a length table become longer and slower.
pub fn read_u32(s: &[u8], at: usize) -> u32
    requires { at + 4 ≤ length s.now }
    ensures { result ≡ be 4 s.now at }
{
    (read_u16(s, at) as u32) * 0x1_0000 + (read_u16(s, at + 2) as u32)
}

pub fn read_u64(s: &[u8], at: usize) -> u64
    requires { at + 8 ≤ length s.now }
    ensures { result ≡ be 8 s.now at }
{
    (read_u32(s, at) as u64) * 0x1_0000_0000 + (read_u32(s, at + 4) as u64)
}

pub fn write_u16(out: &mut [u8], at: usize, value: u16)
    requires { at + 2 ≤ length out.old }
    ensures { out.new ≡ put out.old at (bytes_of 2 value) }
{
    out[at..at + 2].copy_from_slice(&value.to_be_bytes());
}

pub fn write_u32(out: &mut [u8], at: usize, value: u32)
    requires { at + 4 ≤ length out.old }
    ensures { out.new ≡ put out.old at (bytes_of 4 value) }
{
    out[at..at + 4].copy_from_slice(&value.to_be_bytes());
}

pub fn write_u64(out: &mut [u8], at: usize, value: u64)
    requires { at + 8 ≤ length out.old }
    ensures { out.new ≡ put out.old at (bytes_of 8 value) }
{
    out[at..at + 8].copy_from_slice(&value.to_be_bytes());
}

// Copies bytes into lent memory, from `at` on, and gives where they end.
pub fn copy_at(source: &[u8], out: &mut [u8], at: usize) -> usize
    requires { at + length source.now ≤ length out.old }
    ensures value { result ≡ at + length source.now }
    ensures out_after { out.new ≡ put out.old at source.now }
{
    let end = at + source.len();
    out[at..end].copy_from_slice(source);
    end
}

// How many pieces of a size it takes to cover a whole.
pub fn ceil_div(whole: u64, size: u64) -> u64
    requires { 0 < size }
    ensures { result ≡ ceil_div whole size }
{
    whole.div_ceil(size)
}
