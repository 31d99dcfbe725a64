// Byte strings: comparing, places, splitting, IDs, UTF-8.
#![tactic(auto)]

ghost use Rattle.std.specs.Prelude.{◌≡◌, ◌↔◌, true, ◌+◌, ◌≤◌, ◌<◌, length, get_or};
ghost use Rattle.text.specs.Bytes.{eq_bytes, less_bytes, slice, every};
ghost use Rattle.text.specs.Split.{part_at};
ghost use Rattle.text.specs.Ids.{id_byte, is_id, read_id};
ghost use Rattle.abnf.specs.Abnf.{◌∈◌};
ghost use Rattle.text.specs.Utf8.{UTF8-octets, starts_bom, is_text};
ghost use Rattle.text.specs.Parts.{Decides, IdBytes, Ascii, AsciiRun, ByteIn, Begins, Reads, Following};
ghost use Rattle.text.specs.Utf8Place.{low, high, utf8_place};

// Whether two byte strings are equal.
pub fn same(a: &[u8], b: &[u8]) -> bool
    ensures { result ≡ eq_bytes a.now b.now }
{
    // Kept by hand: IDs of one house mostly begin alike, and there the library's `==` was measured to take twice as long.
    if a.len() != b.len() {
        return false;
    }
    for i in (0..a.len()).rev() {
        if a[i] != b[i] {
            return false;
        }
    }
    true
}

// Whether `a` stands before `b` in byte order.
pub fn precedes(a: &[u8], b: &[u8]) -> bool
    ensures { result ≡ less_bytes a.now b.now }
{
    // Kept by hand: on IDs of nine bytes the library's `<` was measured to take half again as long.
    let n = a.len().min(b.len());
    for i in 0..n {
        let x = a[i];
        let y = b[i];
        if x != y {
            return x < y;
        }
    }
    a.len() < b.len()
}

// The bytes `start..end` of a byte string.
#[derive(Clone, Copy)]
pub struct Place {
    pub start: usize,
    pub end: usize,
}

// The bytes from a place up to another, as far as there are any.
pub fn slice(s: &[u8], a: usize, e: usize) -> &[u8]
    ensures { result.now ≡ slice s.now a e }
{
    s.get(a..e.min(s.len())).unwrap_or(&[])
}

// A part between separators: its bytes are `start..end`, and the next part starts at `next`.
#[derive(Clone, Copy)]
pub struct Part {
    pub start: usize,
    pub end: usize,
    pub next: usize,
}

// The part that starts at `at`, up to the next separator or the end; past the end there is none.
pub fn next_part(s: &[u8], at: usize, sep: u8) -> Option<Part>
    ensures { result ≡ part_at sep s.now at }
{
    if at > s.len() {
        return None;
    }
    let rest = &s[at..];
    let len = rest.iter().position(|b| *b == sep).unwrap_or(rest.len());
    let end = at + len;
    Some(Part {
        start: at,
        end,
        next: end + 1,
    })
}

// An ID by value, for "The table is opened for one domain, an ID": its bytes are the first `len`, the others are zero.
// Kept by hand: no heap, so the bytes of an ID by value are an array with a length beside it.
#[derive(Clone, Copy)]
pub struct Id {
    pub bytes: [u8; Id::MAX],
    pub len: usize,
}

fn id_byte(b: u8) -> bool
    ensures { result ≡ id_byte b }
{
    ((b >= b'a') & (b <= b'z')) | (((b >= b'0') & (b <= b'9')) | (b == b'-'))
}

// Whether the eight bytes from `i` on may stand in an ID. Without a branch, so that the compiler tests them at once.
fn id_8(s: &[u8], i: usize) -> bool
    requires { i + 8 ≤ length s.now }
    ensures { Decides (IdBytes s.now i (i + 8)) result }
{
    let mut all = true;
    for k in i..i + 8 {
        all &= id_byte(s[k]);
    }
    all
}

// Whether 8 bytes or more may all stand in an ID; the last block may overlap the one before.
fn id_blocks(s: &[u8]) -> bool
    requires { 8 ≤ length s.now }
    ensures { Decides (IdBytes s.now 0 (length s.now)) result }
{
    for k in 0..(s.len() - 1) / 8 {
        if !id_8(s, s.len() - 8 * (k + 1)) {
            return false;
        }
    }
    id_8(s, 0)
}

// Whether all bytes may stand in an ID, one by one.
fn id_bytes(s: &[u8]) -> bool
    ensures { result ≡ every id_byte s.now }
{
    s.iter().all(|b| id_byte(*b))
}

// Whether the bytes are an ID.
pub fn is_id(s: &[u8]) -> bool
    ensures { result ≡ is_id s.now }
{
    match s.len() {
        1..=7 => id_bytes(s),
        8..=Id::MAX => id_blocks(s),
        _ => false,
    }
}

impl Id {
    pub const MAX: usize = 32;

    // Reads an ID from bytes.
    pub fn read(s: &[u8]) -> Option<Id>
        ensures { result ≡ read_id s.now }
    {
        if !is_id(s) {
            return None;
        }
        let n = s.len();
        let mut bytes = [0; Id::MAX];
        bytes[..n].copy_from_slice(s);
        Some(Id { bytes, len: n })
    }
}

// Whether the W bytes from `i` on are ASCII, by the highest bits of one number.
fn all_ascii<const W: usize>(s: &[u8], i: usize) -> bool
    requires { (i + W ≤ length s.now) × (W ≤ 8) }
    ensures { result ≡ true → Ascii s.now i (i + W) }
{
    little_endian::get(s, i, W) & 0x8080808080808080 == 0
}

// No branch between the two, so that the compiler tests them at once.
fn ascii_16(s: &[u8], i: usize) -> bool
    requires { i + 16 ≤ length s.now }
    ensures { result ≡ true → Ascii s.now i (i + 16) }
{
    all_ascii::<8>(s, i) & all_ascii::<8>(s, i + 8)
}

// Past ASCII bytes from `at` on, 16 at a time.
fn pass_16s(s: &[u8], at: usize) -> usize
    requires { at ≤ length s.now }
    ensures { Ascii s.now at result }
{
    // Kept by hand: the place where it stops is the answer; with a `for` over the blocks' numbers it would be `at + 16 * k` at each use.
    let mut i = at;
    while (s.len() - i >= 16) && ascii_16(s, i) {
        i += 16;
    }
    i
}

// Past the W bytes from `at` on, if they are there and ASCII.
fn pass<const W: usize>(s: &[u8], at: usize) -> usize
    requires { (at ≤ length s.now) × (W ≤ 8) }
    ensures { Ascii s.now at result }
{
    if (s.len() - at >= W) && all_ascii::<W>(s, at) {
        at + W
    } else {
        at
    }
}

// Past all ASCII bytes from `at` on, one at a time.
fn pass_bytes(s: &[u8], at: usize) -> usize
    requires { at ≤ length s.now }
    ensures { AsciiRun s.now at result }
{
    for i in at..s.len() {
        if s[i] >= 0x80 {
            return i;
        }
    }
    s.len()
}

// Past all ASCII bytes from `at` on.
fn ascii_run(s: &[u8], at: usize) -> usize
    requires { at ≤ length s.now }
    ensures { AsciiRun s.now at result }
{
    pass_bytes(s, pass::<4>(s, pass::<8>(s, pass_16s(s, at))))
}

// The same where another character of several bytes is as likely.
fn next_run(s: &[u8], at: usize) -> usize
    requires { at ≤ length s.now }
    ensures { AsciiRun s.now at result }
{
    if (at < s.len()) && (s[at] < 0x80) {
        ascii_run(s, at)
    } else {
        at
    }
}

// The least second byte after a first one: shorter forms stand below it.
fn least(b: u8) -> u8
    ensures { result ≡ low b }
{
    match b {
        0xE0 => 0xA0,
        0xF0 => 0x90,
        _ => 0x80,
    }
}

// The greatest second byte: surrogates, or what exceeds U+10FFFF, stand above it.
fn most(b: u8) -> u8
    ensures { result ≡ high b }
{
    match b {
        0xED => 0x9F,
        0xF4 => 0x8F,
        _ => 0xBF,
    }
}

// Whether a byte from `lo` to `hi` stands at `i`.
fn byte_in(s: &[u8], i: usize, lo: u8, hi: u8) -> bool
    ensures { Decides (ByteIn s.now i lo hi) result }
{
    (i < s.len()) && (s[i] >= lo) && (s[i] <= hi)
}

// Where the character of several bytes that begins with `b` at `i` ends: one of two bytes.
fn short_character(s: &[u8], i: usize, b: u8) -> Option<usize>
    requires { Begins s.now i b × (b < 0xE0) }
    ensures { Reads s.now i result }
{
    if (b >= 0xC2) && byte_in(s, i + 1, 0x80, 0xBF) {
        Some(i + 2)
    } else {
        None
    }
}

// One of three or four.
fn long_character(s: &[u8], i: usize, b: u8) -> Option<usize>
    requires { Begins s.now i b × (0xDF < b) }
    ensures { Reads s.now i result }
{
    if (b > 0xF4) || !byte_in(s, i + 1, least(b), most(b)) {
        return None;
    }
    if !byte_in(s, i + 2, 0x80, 0xBF) {
        return None;
    }
    if b < 0xF0 {
        return Some(i + 3);
    }
    if byte_in(s, i + 3, 0x80, 0xBF) {
        Some(i + 4)
    } else {
        None
    }
}

// Where the character of several bytes at `i` ends.
fn character(s: &[u8], i: usize) -> Option<usize>
    requires { Begins s.now i (get_or s.now i 0) }
    ensures { Reads s.now i result }
{
    let b = s[i];
    if b < 0xE0 {
        short_character(s, i, b)
    } else {
        long_character(s, i, b)
    }
}

// Whether the bytes are UTF-8 (RFC 3629).
pub fn is_utf8(s: &[u8]) -> bool
    ensures { (result ≡ true) ↔ (s.now ∈ UTF8-octets) }
{
    // Kept by hand: each character says where the next one begins, so no range has the places.
    let mut i = ascii_run(s, 0);
    while i < s.len() {
        let Some(e) = character(s, i) else {
            return false;
        };
        i = next_run(s, e);
    }
    true
}

// Whether the bytes begin with the byte order mark.
fn starts_bom(s: &[u8]) -> bool
    ensures { result ≡ starts_bom s.now }
{
    s.starts_with(b"\xEF\xBB\xBF")
}

// Whether the bytes are UTF-8 and begin with no byte order mark.
#[tactic(auto, unfolding(crate::specs::Utf8::is_text))]
pub fn is_text(s: &[u8]) -> bool
    ensures { result ≡ is_text s.now }
{
    !starts_bom(s) && is_utf8(s)
}

// How many bytes follow a first byte in its character, where one begins with it.
fn following(b: u8) -> Option<u8>
    ensures { Following b result }
{
    match b {
        0..=0x7F => Some(0),
        0xC2..=0xDF => Some(1),
        0xE0..=0xEF => Some(2),
        0xF0..=0xF4 => Some(3),
        _ => None,
    }
}

// The first byte at which the bytes cannot go on as UTF-8; their length where they are UTF-8 or end within a character.
pub fn utf8_place(s: &[u8]) -> usize
    ensures { result ≡ utf8_place s.now }
{
    let mut count = 0;
    let mut lo = 0x80;
    let mut hi = 0xBF;
    for i in 0..s.len() {
        let b = s[i];
        if count == 0 {
            let Some(n) = following(b) else {
                return i;
            };
            count = n;
            lo = least(b);
            hi = most(b);
        } else {
            if (b < lo) || (b > hi) {
                return i;
            }
            count -= 1;
            lo = 0x80;
            hi = 0xBF;
        }
    }
    s.len()
}
