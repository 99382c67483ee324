// Big-endian numbers in bytes, and copies of one slice into another.
#![tactic(auto)]

ghost use Rattle.std.specs.Prelude.{◌≡◌, ◌+◌, ◌≤◌, ◌<◌, length};
ghost use Rattle.octets.specs.Octets.{be2, be4, two as two_of, four as four_of, splice};

// The number that two bytes say.
pub fn two(b: &[u8], k: usize) -> u16
    requires { k + 2 ≤ length b.now }
    ensures { result ≡ two_of b.now k }
{
    u16::from_be_bytes([b[k], b[k + 1]])
}

// The number that four bytes say.
pub fn four(b: &[u8], k: usize) -> u32
    requires { k + 4 ≤ length b.now }
    ensures { result ≡ four_of b.now k }
{
    u32::from_be_bytes([b[k], b[k + 1], b[k + 2], b[k + 3]])
}

// Copies all of v into b, from place k on.
pub fn copy(v: &[u8], b: &mut [u8], k: usize)
    requires { k + length v.now ≤ length b.old }
    ensures { b.new ≡ splice b.old k v.now }
{
    b[k..k + v.len()].copy_from_slice(v);
}

// Writes a number's two bytes.
pub fn put_two(b: &mut [u8], k: usize, n: u16)
    requires { k + 2 ≤ length b.old }
    ensures { b.new ≡ splice b.old k (be2 n) }
{
    b[k..k + 2].copy_from_slice(&n.to_be_bytes());
}

// Writes a number's four bytes.
pub fn put_four(b: &mut [u8], k: usize, n: u32)
    requires { k + 4 ≤ length b.old }
    ensures { b.new ≡ splice b.old k (be4 n) }
{
    b[k..k + 4].copy_from_slice(&n.to_be_bytes());
}
