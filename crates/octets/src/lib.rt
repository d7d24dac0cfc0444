// Bytes: numbers in them, low byte first; bytes that are all 0.
#![tactic(auto)]

ghost use Rattle.std.specs.Prelude.{◌≡◌, ◌&&◌, ◌+◌, ◌≤◌, eqb, length};
ghost use Rattle.octets.specs.Bytes.{number, bytes_of, part, put, all_zero};

pub fn u8_at(s: &[u8], at: usize) -> u8
    requires { at + 1 ≤ length s.now }
    ensures { result ≡ number (part at 1 s.now) }
{
    s[at]
}

// Wider numbers by halves.
pub fn u16_at(s: &[u8], at: usize) -> u16
    requires { at + 2 ≤ length s.now }
    ensures { result ≡ number (part at 2 s.now) }
{
    u8_at(s, at) as u16 + u8_at(s, at + 1) as u16 * 0x100
}

pub fn u32_at(s: &[u8], at: usize) -> u32
    requires { at + 4 ≤ length s.now }
    ensures { result ≡ number (part at 4 s.now) }
{
    u16_at(s, at) as u32 + u16_at(s, at + 2) as u32 * 0x1_0000
}

pub fn u64_at(s: &[u8], at: usize) -> u64
    requires { at + 8 ≤ length s.now }
    ensures { result ≡ number (part at 8 s.now) }
{
    u32_at(s, at) as u64 + u32_at(s, at + 4) as u64 * 0x1_0000_0000
}

// Are the seven bytes behind this one 0?
pub fn rest_zero(s: &[u8], at: usize) -> bool
    requires { at + 8 ≤ length s.now }
    ensures { result ≡ all_zero (part (at + 1) 7 s.now) }
{
    u64_at(s, at) == u8_at(s, at) as u64
}

// The bytes of a number, as many as there is room for.
pub fn fill(s: &mut [u8], v: u64)
    ensures { s.new ≡ bytes_of (length s.old) v }
{
    let mut left = v;
    for x in s.iter_mut() {
        *x = (left % 256) as u8;
        left /= 256;
    }
}

// A number stored `width` bytes wide.
pub fn store_at(s: &mut [u8], at: usize, width: usize, v: u64)
    requires { at + width ≤ length s.old }
    ensures { s.new ≡ put at (bytes_of width v) s.old }
{
    fill(&mut s[at..at + width], v);
}

// The bits of two bytes: 0 exactly where both are.
pub fn joined(a: u8, b: u8) -> u8
    ensures { eqb result 0 ≡ (eqb a 0 && eqb b 0) }
{
    a | b
}

// Are all bytes 0? All their bits are. It does not stop at the first byte that is not: so it takes many at a time.
pub fn all_zero(s: &[u8]) -> bool
    ensures { result ≡ all_zero s.now }
{
    let mut bits = 0;
    for x in s {
        bits = joined(bits, *x);
    }
    bits == 0
}
