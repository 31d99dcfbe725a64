// Strings (RFC 8259, 7): runs of bytes that stand for themselves, and escapes byte by byte.
ghost use Rattle.std.specs.Prelude.{◌≡◌, ◌+◌, ◌-◌, ◌≤◌, length, take, drop, true, false};
ghost use Rattle.json_text.specs.Bytes.{Scanned};
ghost use Rattle.json_text.specs.Strings.{is_hex, is_escape, plain_step, escape_step, hex_step, text_step, string_at, raw_bytes, is_plain};
ghost use Rattle.json_text.specs.Parts.{Kept, stands_for_itself, EachPlain, Run, RunOver, Escaped};
ghost use Rattle.json_text.specs.declared.string.State.TheVariants.{Plain};
ghost use Rattle.json_text.specs.declared.string.Move.TheVariants.{Go};

use super::{note, peek};

// Within a string: plain, after a backslash, or with so many hex digits to come.
#[derive(Clone, Copy)]
pub enum State {
    Plain,
    Escape,
    Hex4,
    Hex3,
    Hex2,
    Hex1,
}

// What a byte does: to another state, past the closing quote, or it cannot stand there.
// Kept by hand: three ways on, which a `Result<Option<State>, _>` would name twice over; the definitions of specs/Strings.antt give their meaning by these names.
#[derive(Clone, Copy)]
pub enum Move {
    Go(State),
    Shut,
    Stuck,
}

#[tactic(auto, unfolding(crate::specs::Strings::is_hex, abnf::specs::Accepts::in_range))]
fn is_hex(b: u16) -> bool
    ensures { result ≡ is_hex b }
{
    matches!(b, 48..=57 | 65..=70 | 97..=102)
}

#[tactic(auto, unfolding(crate::specs::Strings::plain_step, abnf::specs::Accepts::in_range))]
fn plain_step(b: u16) -> Move
    ensures { result ≡ plain_step b }
{
    match b {
        34 => Move::Shut,
        92 => Move::Go(State::Escape),
        32..=255 => Move::Go(State::Plain),
        _ => Move::Stuck,
    }
}

#[tactic(auto, unfolding(crate::specs::Strings::is_escape))]
fn is_escape(b: u16) -> bool
    ensures { result ≡ is_escape b }
{
    matches!(b, 34 | 47 | 92 | 98 | 102 | 110 | 114 | 116)
}

fn escape_step(b: u16) -> Move
    ensures { result ≡ escape_step b }
{
    if b == 117 {
        return Move::Go(State::Hex4);
    }
    if is_escape(b) {
        Move::Go(State::Plain)
    } else {
        Move::Stuck
    }
}

fn hex_step(next: State, b: u16) -> Move
    ensures { result ≡ hex_step next b }
{
    if is_hex(b) {
        Move::Go(next)
    } else {
        Move::Stuck
    }
}

fn text_step(t: State, b: u16) -> Move
    ensures { result ≡ text_step t b }
{
    match t {
        State::Plain => plain_step(b),
        State::Escape => escape_step(b),
        State::Hex4 => hex_step(State::Hex3, b),
        State::Hex3 => hex_step(State::Hex2, b),
        State::Hex2 => hex_step(State::Hex1, b),
        State::Hex1 => hex_step(State::Plain, b),
    }
}

// Whether a byte stands for itself: without a branch, so that the compiler tests many bytes at once.
fn stands_unbranched(b: u8) -> bool
    ensures { result ≡ true → plain_step b ≡ Go Plain }
{
    (b >= 32) & (b != b'"') & (b != b'\\')
}

// Whether each byte of a block stands for itself; all are tested, whatever the first ones are.
fn are_plain(block: &[u8]) -> bool
    ensures { result ≡ true → EachPlain block.now (length block.now) }
{
    let mut all = true;
    for b in block {
        all = all & stands_unbranched(*b);
    }
    all
}

// Past bytes from `at` on that stand for themselves, 8 at a time.
// Kept by hand: the blocks begin at `at`, and what is left goes on from an index: chunks would be counted back into one.
fn plain_blocks(s: &[u8], at: usize) -> usize
    requires { at ≤ length s.now }
    ensures { Run s.now at result }
{
    let mut i = at;
    while s.len() - i >= 8 {
        if !are_plain(&s[i..i + 8]) {
            return i;
        }
        i += 8;
    }
    i
}

// Whether a byte stands for itself: few tests for most bytes.
// Kept by hand: most bytes of a text are told by the first test or the third; a range pattern leaves their order open.
fn stands_for_itself(b: u8) -> bool
    ensures { result ≡ stands_for_itself b }
{
    if b > 92 {
        return true;
    }
    if b == 92 {
        return false;
    }
    if b > 34 {
        return true;
    }
    if b == 34 {
        return false;
    }
    b >= 32
}

// Past the bytes from `at` on that stand for themselves, one at a time.
fn plain_bytes(s: &[u8], at: usize) -> usize
    requires { at ≤ length s.now }
    ensures { RunOver s.now at result }
{
    for i in at..s.len() {
        if !stands_for_itself(s[i]) {
            return i;
        }
    }
    s.len()
}

// Past the bytes from `at` on that stand for themselves.
fn plain_run(s: &[u8], at: usize) -> usize
    requires { at ≤ length s.now }
    ensures { RunOver s.now at result }
{
    plain_bytes(s, plain_blocks(s, at))
}

// What stands after a backslash, from `at` on.
fn escape(s: &[u8], at: usize) -> Result<usize, usize>
    requires { at ≤ length s.now }
    ensures { Escaped s.now at result }
{
    let mut t = State::Escape;
    for i in at..s.len() {
        match text_step(t, u16::from(s[i])) {
            Move::Go(State::Plain) => return Ok(i + 1),
            Move::Go(u) => t = u,
            Move::Shut | Move::Stuck => return Err(i),
        }
    }
    Err(s.len())
}

// The string at `at`, from its opening quote; its end is noted if it has no backslash.
// Kept by hand: where a run begins is known only once the escape before it is read, so that no range and no iterator goes over them.
pub(crate) fn mark_string(s: &[u8], at: usize, ends: &mut [u16]) -> Result<usize, usize>
    ensures { Scanned (string_at s.now at) at (length s.now) result × Kept 0 s.now ends.old ends.new }
{
    if peek(s, at) != 34 {
        return Err(at);
    }
    let mut i = at + 1;
    loop {
        let j = plain_run(s, i);
        match peek(s, j) {
            34 => {
                let end = Ok(j + 1);
                if i != at + 1 {
                    return end;
                }
                note(at, end, ends);
                return end;
            }
            92 => i = escape(s, j + 1)?,
            _ => return Err(j),
        }
    }
}

// The string at `at`.
pub fn string(s: &[u8], at: usize) -> Result<usize, usize>
    ensures { Scanned (string_at s.now at) at (length s.now) result }
{
    mark_string(s, at, &mut [])
}

// Whether no backslash stands from `from` up to `to`.
fn is_plain_between(s: &[u8], from: usize, to: usize) -> bool
    requires { (from ≤ to) × (to ≤ length s.now) }
    ensures { result ≡ is_plain (take (to - from) (drop from s.now)) }
{
    !s[from..to].contains(&b'\\')
}

// Whether the string at `at` has no backslash; so it is where no string stands.
pub fn is_plain(s: &[u8], at: usize) -> bool
    ensures { result ≡ is_plain (raw_bytes s.now at) }
{
    match string(s, at) {
        Err(_) => true,
        Ok(e) => is_plain_between(s, at + 1, e - 1),
    }
}
