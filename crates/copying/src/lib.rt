// Bytes copied over others.
#![tactic(auto)]

ghost use Rattle.std.specs.Prelude.{◌≡◌, ◌+◌, ◌≤◌, length};
ghost use Rattle.octets.specs.Bytes.{part, put};

// Bytes copied over as many others, by way of a page of N bytes that holds them.
fn by_page<const N: usize>(to: &mut [u8], from: &[u8])
    requires { (length to.old ≡ length from.now) × (length from.now ≤ N) × (N ≤ 4096) }
    ensures { to.new ≡ from.now }
{
    let n = to.len();
    let mut page = [0u8; N];
    let held = &mut page[..];
    held[0..n].copy_from_slice(from);
    to.copy_from_slice(&held[0..n]);
}

// Bytes copied over as many others. By way of a page the compiler makes one move (of eight bytes, one load and one store), and no page;
// without it, a test first of whether they overlap, which tells at eight bytes.
pub fn copy(to: &mut [u8], from: &[u8])
    requires { length to.old ≡ length from.now }
    ensures { to.new ≡ from.now }
{
    let n = to.len();
    if n == 8 {
        by_page::<8>(to, from);
    } else if n <= 4096 {
        by_page::<4096>(to, from);
    } else {
        to.copy_from_slice(from);
    }
}

// Bytes copied within a slice.
pub fn copy_within(s: &mut [u8], from: usize, to: usize, n: usize)
    requires { (from + n ≤ length s.old) × (to + n ≤ length s.old) × (n ≤ 4096) }
    ensures { s.new ≡ put to (part from n s.old) s.old }
{
    s.copy_within(from..from + n, to);
}
