// JSON's strings decoded (RFC 8259, 7; paper 02, K4). `raw` is what stands between a string's quotes.
#![tactic(auto)]

ghost use Rattle.std.specs.Prelude.{◌≡◌, true, None, ◌&&◌, ◌++◌, ◌+◌, ◌≤◌, min, length, drop};
ghost use Rattle.text.specs.Bytes.{less_bytes};
ghost use Rattle.json_text.specs.Strings.{is_plain};
ghost use Rattle.escapes.specs.Escapes.{hex_digit, code_unit, is_high, is_low, short_of, pair_after, escape_of};
ghost use Rattle.escapes.specs.Decode.{decode, written, half_of, is_this, alike, Decodes};
ghost use Rattle.escapes.specs.Parts.{coded_of, char_step, step_at, Copied};

// A character that a backslash writes, and how many bytes after the backslash write it.
#[derive(Clone, Copy)]
struct Escaped {
    code: u32,
    len: usize,
}

// A byte that a string writes, with the place of the next one: an index in `raw`, and how many bytes of the character there are past. Or half a pair stands
// there, or nothing more.
// Kept by hand: three answers, no two of them alike; `Result<Option<(u8, usize, usize)>, _>` says the same in two layers, which each of the five walks would open.
#[derive(Clone, Copy)]
enum Step {
    Byte(u8, usize, usize),
    Stop,
    Over,
}

// A character's bytes: the first `n`, the others are zero.
// Kept by hand: the project has no heap, and a character has at most four bytes.
#[derive(Clone, Copy)]
struct Coded {
    n: usize,
    bytes: [u8; 4],
}

// A hexadecimal digit's value.
#[tactic(auto, unfolding(crate::specs::Escapes::hex_digit, abnf::specs::Accepts::in_range))]
fn hex_digit(b: u16) -> u32
    ensures { result ≡ hex_digit b }
{
    match b {
        48..=57 => u32::from(b) - 48,
        65..=70 => u32::from(b) - 55,
        97..=102 => u32::from(b) - 87,
        _ => 0,
    }
}

// The value of four hexadecimal digits from `i` on.
fn code_unit(s: &[u8], i: usize) -> u32
    requires { i ≤ 8 }
    ensures { result ≡ code_unit s.now i }
{
    let a = hex_digit(json_text::peek(s, i));
    let b = hex_digit(json_text::peek(s, i + 1));
    let c = hex_digit(json_text::peek(s, i + 2));
    let d = hex_digit(json_text::peek(s, i + 3));
    4096 * a + (256 * b + (16 * c + d))
}

// The character of a backslash and one byte.
#[tactic(auto, unfolding(crate::specs::Escapes::short_of))]
fn short(b: u16) -> u32
    ensures { result ≡ short_of b }
{
    match b {
        98 => 8,
        102 => 12,
        110 => 10,
        114 => 13,
        116 => 9,
        34 => 34,
        47 => 47,
        _ => 92,
    }
}

// Whether a code unit is a high surrogate.
#[tactic(auto, unfolding(crate::specs::Escapes::is_high, abnf::specs::Accepts::in_range))]
fn is_high(u: u32) -> bool
    ensures { result ≡ is_high u }
{
    matches!(u, 0xD800..=0xDBFF)
}

// Whether a code unit is a low surrogate.
#[tactic(auto, unfolding(crate::specs::Escapes::is_low, abnf::specs::Accepts::in_range))]
fn is_low(u: u32) -> bool
    ensures { result ≡ is_low u }
{
    matches!(u, 0xDC00..=0xDFFF)
}

// What a high surrogate writes, with what follows its six bytes; none where it is half a pair.
fn pair_after(s: &[u8], h: u32) -> Option<Escaped>
    requires { is_high h ≡ true }
    ensures { result ≡ pair_after s.now h }
{
    if json_text::peek(s, 6) != 92 {
        return None;
    }
    if json_text::peek(s, 7) != 117 {
        return None;
    }
    let l = code_unit(s, 8);
    if !is_low(l) {
        return None;
    }
    Some(Escaped {
        code: 0x10000 + (1024 * (h - 0xD800) + (l - 0xDC00)),
        len: 11,
    })
}

// What the backslash writes that the bytes begin with; none where it is half a surrogate pair.
fn escape_of(s: &[u8]) -> Option<Escaped>
    ensures { result ≡ escape_of s.now }
{
    let b = json_text::peek(s, 1);
    if b != 117 {
        return Some(Escaped {
            code: short(b),
            len: 1,
        });
    }
    let u = code_unit(s, 2);
    if is_high(u) {
        return pair_after(s, u);
    }
    if is_low(u) {
        return None;
    }
    Some(Escaped { code: u, len: 5 })
}

// A character's bytes.
fn encode(c: u32) -> Coded
    requires { c ≤ 0x10FFFF }
    ensures { result ≡ coded_of c }
{
    if c < 0x80 {
        return Coded {
            n: 1,
            bytes: [c as u8, 0, 0, 0],
        };
    }
    if c < 0x800 {
        return Coded {
            n: 2,
            bytes: [(0xC0 + c / 64) as u8, (0x80 + c % 64) as u8, 0, 0],
        };
    }
    if c < 0x10000 {
        return Coded {
            n: 3,
            bytes: [
                (0xE0 + c / 4096) as u8,
                (0x80 + c / 64 % 64) as u8,
                (0x80 + c % 64) as u8,
                0,
            ],
        };
    }
    Coded {
        n: 4,
        bytes: [
            (0xF0 + c / 262144) as u8,
            (0x80 + c / 4096 % 64) as u8,
            (0x80 + c / 64 % 64) as u8,
            (0x80 + c % 64) as u8,
        ],
    }
}

// Byte `o` of a character that is written from `i` up to `e`.
fn char_step(c: u32, o: usize, i: usize, e: usize) -> Step
    requires { c ≤ 0x10FFFF }
    ensures { result ≡ char_step c o i e }
{
    let Coded { n, bytes } = encode(c);
    if o >= n {
        return Step::Over;
    }
    let b = bytes[o];
    if o + 1 < n {
        return Step::Byte(b, i, o + 1);
    }
    Step::Byte(b, e, 0)
}

// Past a byte at `i` and `n` more, as far as there are any.
fn past(i: usize, n: usize, len: usize) -> usize
    requires { i + 1 ≤ len }
    ensures { result ≡ min (i + 1 + n) len }
{
    if n < len - i { i + 1 + n } else { len }
}

// The next byte that the text writes from `i` on, of whose character `o` bytes are past.
fn next_byte(s: &[u8], i: usize, o: usize) -> Step
    ensures { result ≡ step_at s.now i o }
{
    if i >= s.len() {
        return Step::Over;
    }
    let b = s[i];
    if b != b'\\' {
        return Step::Byte(b, i + 1, 0);
    }
    match escape_of(&s[i..]) {
        None => Step::Stop,
        Some(Escaped { code, len }) => char_step(code, o, i, past(i, len, s.len())),
    }
}

// Whether the bytes have no backslash.
pub fn is_plain(raw: &[u8]) -> bool
    ensures { result ≡ is_plain raw.now }
{
    !raw.contains(&b'\\')
}

// Kept by hand: `half`, `count`, `write_alike` and `write_before` loop. An escape moves the index by a length of its own, as no range does; and an iterator over the
// bytes would answer None both at the end and at half a pair, which differ here: a string with half a pair is alike to none, not even to itself.

// The first half of a surrogate pair, by its backslash.
pub fn half(raw: &[u8]) -> Option<usize>
    ensures { result ≡ half_of (decode raw.now) }
{
    let mut at = 0;
    while at < raw.len() {
        if raw[at] == b'\\' {
            match escape_of(&raw[at..]) {
                None => return Some(at),
                Some(Escaped { len, .. }) => at = past(at, len, raw.len()),
            }
        } else {
            at += 1;
        }
    }
    None
}

// Whether the bytes write just these, byte by byte.
fn writes(raw: &[u8], name: &[u8]) -> bool
    ensures { result ≡ is_this name.now (decode raw.now) }
{
    let mut i = 0;
    let mut o = 0;
    for c in name {
        match next_byte(raw, i, o) {
            Step::Byte(b, p, q) => {
                if b != *c {
                    return false;
                }
                i = p;
                o = q;
            }
            Step::Stop | Step::Over => return false,
        }
    }
    matches!(next_byte(raw, i, o), Step::Over)
}

// Whether the bytes write just these.
pub fn same(raw: &[u8], name: &[u8]) -> bool
    ensures { result ≡ is_this name.now (decode raw.now) }
{
    if is_plain(raw) {
        text::same(raw, name)
    } else {
        writes(raw, name)
    }
}

// Whether both write the same, byte by byte.
fn write_alike(a: &[u8], b: &[u8]) -> bool
    ensures { result ≡ alike (decode a.now) (decode b.now) }
{
    let mut i = 0;
    let mut o = 0;
    let mut j = 0;
    let mut p = 0;
    loop {
        match (next_byte(a, i, o), next_byte(b, j, p)) {
            (Step::Byte(x, i2, o2), Step::Byte(y, j2, p2)) => {
                if x != y {
                    return false;
                }
                i = i2;
                o = o2;
                j = j2;
                p = p2;
            }
            (Step::Over, Step::Over) => return true,
            _ => return false,
        }
    }
}

// Whether both write the same.
// Kept by hand: no `==`, since the bytes that write it differ, and a string with half a pair is not the same as itself.
pub fn same_both(a: &[u8], b: &[u8]) -> bool
    ensures { result ≡ alike (decode a.now) (decode b.now) }
{
    if is_plain(a) {
        same(b, a)
    } else {
        write_alike(a, b)
    }
}

// How many bytes are written, one by one; 0 with half a pair.
fn count(raw: &[u8]) -> usize
    ensures { result ≡ length (written raw.now) }
{
    let mut i = 0;
    let mut o = 0;
    let mut n: usize = 0;
    loop {
        match next_byte(raw, i, o) {
            Step::Stop => return 0,
            Step::Over => return n,
            Step::Byte(_, p, q) => {
                i = p;
                o = q;
                n += 1;
            }
        }
    }
}

// Writes what the bytes write to the front of a buffer.
fn put_written(raw: &[u8], out: &mut [u8])
    requires { (half_of (decode raw.now) ≡ None) × (length (written raw.now) ≤ length out.old) }
    ensures { out.new ≡ written raw.now ++ drop (length (written raw.now)) out.old }
{
    let mut i = 0;
    let mut o = 0;
    for slot in out.iter_mut() {
        match next_byte(raw, i, o) {
            Step::Byte(b, p, q) => {
                *slot = b;
                i = p;
                o = q;
            }
            Step::Stop | Step::Over => return,
        }
    }
}

// Writes the bytes to the front of a buffer.
fn put(t: &[u8], out: &mut [u8])
    requires { length t.now ≤ length out.old }
    ensures { out.new ≡ t.now ++ drop (length t.now) out.old }
{
    out[..t.len()].copy_from_slice(t);
}

// Copies bytes to the front of a buffer if they fit; how many they are.
fn copy(t: &[u8], out: &mut [u8]) -> usize
    ensures { Copied t.now out.old out.new result }
{
    if t.len() <= out.len() {
        put(t, out);
    }
    t.len()
}

// Copies what the bytes write to the front of a buffer if it fits; how many bytes that are.
fn copy_written(raw: &[u8], out: &mut [u8]) -> usize
    requires { half_of (decode raw.now) ≡ None }
    ensures { Copied (written raw.now) out.old out.new result }
{
    let n = count(raw);
    if n <= out.len() {
        put_written(raw, out);
    }
    n
}

// The string that the bytes write, put at the front of a buffer if it fits: how many bytes it has, or its first half of a surrogate pair, by its backslash.
pub fn decode(raw: &[u8], out: &mut [u8]) -> Result<usize, usize>
    ensures { Decodes raw.now out.old out.new result }
{
    if is_plain(raw) {
        return Ok(copy(raw, out));
    }
    match half(raw) {
        Some(p) => Err(p),
        None => Ok(copy_written(raw, out)),
    }
}

fn are_plain(a: &[u8], b: &[u8]) -> bool
    ensures { result ≡ (is_plain a.now && is_plain b.now) }
{
    is_plain(a) && is_plain(b)
}

// Whether what `a` writes stands before what `b` writes in byte order, where neither has half a pair.
fn write_before(a: &[u8], b: &[u8]) -> bool
    requires { (half_of (decode a.now) ≡ None) × (half_of (decode b.now) ≡ None) }
    ensures { result ≡ less_bytes (written a.now) (written b.now) }
{
    let mut i = 0;
    let mut o = 0;
    let mut j = 0;
    let mut p = 0;
    loop {
        match (next_byte(a, i, o), next_byte(b, j, p)) {
            (Step::Byte(x, i2, o2), Step::Byte(y, j2, p2)) => {
                if x != y {
                    return x < y;
                }
                i = i2;
                o = o2;
                j = j2;
                p = p2;
            }
            (Step::Over, Step::Byte(_, _, _)) => return true,
            _ => return false,
        }
    }
}

// Whether what `a` writes stands before what `b` writes in byte order.
pub fn precedes(a: &[u8], b: &[u8]) -> bool
    ensures { result ≡ less_bytes (written a.now) (written b.now) }
{
    if are_plain(a, b) {
        return text::precedes(a, b);
    }
    match half(b) {
        Some(_) => false,
        None => match half(a) {
            Some(_) => count(b) > 0,
            None => write_before(a, b),
        },
    }
}
