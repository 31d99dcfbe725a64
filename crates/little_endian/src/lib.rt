// Numbers in bytes, the lowest first.
#![tactic(auto)]

ghost use Rattle.std.specs.Prelude.{◌≡◌, ◌+◌, ◌^◌, ◌≤◌, ◌<◌, min, length};
ghost use Rattle.little_endian.specs.Bytes.{num, le_bytes, put, Stored};

// The most bytes of a number.
const MOST: usize = 8;

// The number in W bytes that are there. As W is a constant, the compiler loads them at once.
fn read<const W: usize>(s: &[u8], at: usize) -> u64
    requires { (at + W ≤ length s.now) × (W ≤ 8) }
    ensures { (result ≡ num W at s.now) × (result < 256 ^ W) }
{
    let mut bytes = [0; 8];
    bytes[..W].copy_from_slice(&s[at..at + W]);
    u64::from_le_bytes(bytes)
}

// The number in w bytes that are there, byte by byte.
fn read_each(s: &[u8], at: usize, w: usize) -> u64
    requires { (at + w ≤ length s.now) × (w ≤ 8) }
    ensures { (result ≡ num w at s.now) × (result < 256 ^ w) }
{
    let mut v = 0;
    for j in (0..w).rev() {
        v = v * 256 + u64::from(s[at + j]);
    }
    v
}

// The number in w bytes that are there.
fn read_within(s: &[u8], at: usize, w: usize) -> u64
    requires { (at + w ≤ length s.now) × (w ≤ 8) }
    ensures { (result ≡ num w at s.now) × (result < 256 ^ w) }
{
    match w {
        8 => read::<8>(s, at),
        4 => read::<4>(s, at),
        2 => read::<2>(s, at),
        _ => read_each(s, at, w),
    }
}

// The number in the w bytes from `at` on, at most 8, as far as there are any.
pub fn get(s: &[u8], at: usize, w: usize) -> u64
    ensures { (result ≡ num (min w 8) at s.now) × (result < 256 ^ min w 8) }
{
    if s.len() < at {
        return 0;
    }
    let left = s.len() - at;
    let n = w.min(MOST);
    if left < n {
        return read_each(s, at, left);
    }
    read_within(s, at, n)
}

// Writes the number x to W bytes that are there, at once likewise.
fn write<const W: usize>(d: &mut [u8], at: usize, x: u64)
    requires { (at + W ≤ length d.old) × (W ≤ 8) }
    ensures { d.new ≡ put d.old at (le_bytes W x) }
{
    let bytes = x.to_le_bytes();
    d[at..at + W].copy_from_slice(&bytes[..W]);
}

// Writes the number x to w bytes that are there, byte by byte.
fn write_each(d: &mut [u8], at: usize, w: usize, x: u64)
    requires { at + w ≤ length d.old }
    ensures { d.new ≡ put d.old at (le_bytes w x) }
{
    let mut v = x;
    for j in 0..w {
        d[at + j] = (v % 256) as u8;
        v /= 256;
    }
}

// Writes the number x to w bytes that are there.
fn write_within(d: &mut [u8], at: usize, w: usize, x: u64)
    requires { at + w ≤ length d.old }
    ensures { d.new ≡ put d.old at (le_bytes w x) }
{
    match w {
        8 => write::<8>(d, at, x),
        4 => write::<4>(d, at, x),
        2 => write::<2>(d, at, x),
        _ => write_each(d, at, w, x),
    }
}

// Writes the number x to the w bytes from `at` on, if they are all there.
pub fn set(d: &mut [u8], at: usize, w: usize, x: u64)
    ensures { Stored d.old at w x d.new }
{
    if (at <= d.len()) && (w <= d.len() - at) {
        write_within(d, at, w, x);
    }
}
