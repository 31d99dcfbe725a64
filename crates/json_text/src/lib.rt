// JSON texts (RFC 8259) as bytes: judging one, and walking through its objects and arrays.
// A scan answers `Ok`, where what it read ends, or `Err`, the first place at which nothing that stands there can be right.
#![tactic(auto)]

mod number;
pub mod string;

ghost use Rattle.std.specs.Prelude.{◌≡◌, ◌<◌, length};
ghost use Rattle.json_text.specs.Bytes.{byte, is_ws, ws, word, Skipped, Scanned, Moved};
ghost use Rattle.json_text.specs.Strings.{string_at, raw_bytes, is_plain};
ghost use Rattle.json_text.specs.Value.{colon, key_at, member_of, value_at, array_at, object_at, document_of, opens, is_container};
ghost use Rattle.json_text.specs.Ends.{Ends, ScannedIf, GotItemIf, Marked};
ghost use Rattle.json_text.specs.Parts.{Bare, Leaf, Kept, Noted, Cleared, Told};
ghost use Rattle.json_text.specs.Members.{next_at, member_at, element_at};

use number::number;
use string::{is_plain, mark_string, string};

// An object's member or an array's element: where its value begins and ends, and where the next one begins.
#[derive(Clone, Copy)]
pub struct Item {
    pub value: usize,
    pub end: usize,
    pub next: usize,
}

// The byte at an index, or 256 at and past the end.
// Kept by hand: the grammar's theorems stand on `byte`, a number that is 256 at the end; so bytes are numbers in what reads them, not `b'{'` of an Option<u8>.
pub fn peek(s: &[u8], at: usize) -> u16
    ensures { result ≡ byte s.now at }
{
    if at < s.len() { u16::from(s[at]) } else { 256 }
}

#[tactic(auto, unfolding(crate::specs::Bytes::is_ws))]
fn is_ws(b: u16) -> bool
    ensures { result ≡ is_ws b }
{
    matches!(b, 32 | 10 | 13 | 9)
}

// The first index at or after `at` that holds no white space.
// Kept by hand: `digits` of number.rt is its twin but for the test; one over a closure is as long as both, and each would have to prove what its test means.
pub fn skip(s: &[u8], at: usize) -> usize
    ensures { Skipped (ws s.now at) at (length s.now) result }
{
    for i in at..s.len() {
        if !is_ws(u16::from(s[i])) {
            return i;
        }
    }
    at.max(s.len())
}

// The bytes of w, one after another, from `at`.
fn literal(s: &[u8], at: usize, w: &[u8]) -> Result<usize, usize>
    ensures { Moved (word w.now s.now at) at (length s.now) result }
{
    for (i, b) in w.iter().enumerate() {
        if peek(s, at + i) != u16::from(*b) {
            return Err(at + i);
        }
    }
    Ok(at + w.len())
}

// The colon after a name that ends at `e`, and the white space about it: the index of the member's value.
fn after_name(s: &[u8], e: usize) -> Result<usize, usize>
    ensures { Scanned (colon s.now (ws s.now e)) e (length s.now) result }
{
    let j = skip(s, e);
    if peek(s, j) == 58 {
        Ok(skip(s, j + 1))
    } else {
        Err(j)
    }
}

// Where the table has room, notes that what was scanned at `at` ends where the scan ended.
fn note(at: usize, r: Result<usize, usize>, ends: &mut [u16])
    ensures { Noted at r ends.old ends.new }
{
    if let Ok(e) = r {
        if e < 65536 && at < ends.len() {
            ends[at] = e as u16;
        }
    }
}

// A member's name, noted if it has no backslash, and its colon: the index of the member's value.
fn mark_key(s: &[u8], at: usize, ends: &mut [u16]) -> Result<usize, usize>
    ensures { Scanned (key_at s.now at) at (length s.now) result × Kept 0 s.now ends.old ends.new }
{
    let e = mark_string(s, at, ends)?;
    after_name(s, e)
}

#[tactic(auto, unfolding(crate::specs::Value::opens))]
fn is_opening(b: u16) -> bool
    ensures { result ≡ opens b }
{
    matches!(b, 91 | 123)
}

// The value at `at` that is no string, array or object: the same at each depth.
fn leaf(s: &[u8], at: usize) -> Result<usize, usize>
    requires { Bare (byte s.now at) }
    ensures { Leaf s.now at result }
{
    match peek(s, at) {
        116 => literal(s, at, b"true"),
        102 => literal(s, at, b"false"),
        110 => literal(s, at, b"null"),
        _ => number(s, at),
    }
}

// Paper 01: "A value may be an array, and an array holds values". `mark_value`, `inner_value`, `array`, `object` and its `member` call each other; each call has
// less nesting left, or as much and fewer bytes.

// The value at `at`, with arrays and objects nested at most `depth` deep; it and the values within it are noted.
#[cycle(array_inner_value_mark_value_member_object)]
fn mark_value(s: &[u8], at: usize, depth: u8, ends: &mut [u16]) -> Result<usize, usize>
    ensures { Scanned (value_at depth s.now at) at (length s.now) result × Kept depth s.now ends.old ends.new }
{
    match peek(s, at) {
        91 => {
            if depth == 0 {
                return Err(at);
            }
            let r = array(s, at, depth - 1, ends);
            note(at, r, ends);
            r
        }
        123 => {
            if depth == 0 {
                return Err(at);
            }
            let r = object(s, at, depth - 1, ends);
            note(at, r, ends);
            r
        }
        34 => mark_string(s, at, ends),
        _ => leaf(s, at),
    }
}

// The same for a value within another: only an array or an object costs a call of `mark_value`.
#[cycle(array_inner_value_mark_value_member_object)]
fn inner_value(s: &[u8], at: usize, depth: u8, ends: &mut [u16]) -> Result<usize, usize>
    ensures { Scanned (value_at depth s.now at) at (length s.now) result × Kept depth s.now ends.old ends.new }
{
    let b = peek(s, at);
    if b == 34 {
        return mark_string(s, at, ends);
    }
    if is_opening(b) {
        return mark_value(s, at, depth, ends);
    }
    leaf(s, at)
}

// Kept by hand: `array` and `object` are two, and loop. One for both would test at each item which of the two reads it; and where an item begins is known only
// once the one before is read, so that no range and no iterator goes over them.

// The array whose bracket is at `at`; its values have arrays and objects nested at most `depth` deep.
#[cycle(array_inner_value_mark_value_member_object)]
fn array(s: &[u8], at: usize, depth: u8, ends: &mut [u16]) -> Result<usize, usize>
    requires { at < length s.now }
    ensures { Scanned (array_at depth s.now at) at (length s.now) result × Kept depth s.now ends.old ends.new }
{
    let mut i = skip(s, at + 1);
    if peek(s, i) == 93 {
        return Ok(i + 1);
    }
    loop {
        let v = inner_value(s, i, depth, ends)?;
        let j = skip(s, v);
        match peek(s, j) {
            44 => i = skip(s, j + 1),
            93 => return Ok(j + 1),
            _ => return Err(j),
        }
    }
}

// The object whose brace is at `at`, likewise.
#[cycle(array_inner_value_mark_value_member_object)]
fn object(s: &[u8], at: usize, depth: u8, ends: &mut [u16]) -> Result<usize, usize>
    requires { at < length s.now }
    ensures { Scanned (object_at depth s.now at) at (length s.now) result × Kept depth s.now ends.old ends.new }
{
    let mut i = skip(s, at + 1);
    if peek(s, i) == 125 {
        return Ok(i + 1);
    }
    loop {
        let m = member(s, i, depth, ends)?;
        let j = skip(s, m);
        match peek(s, j) {
            44 => i = skip(s, j + 1),
            125 => return Ok(j + 1),
            _ => return Err(j),
        }
    }
}

// The member whose name's quote is at `at`: its name, its colon, its value.
#[cycle(array_inner_value_mark_value_member_object)]
fn member(s: &[u8], at: usize, depth: u8, ends: &mut [u16]) -> Result<usize, usize>
    ensures { Scanned (member_of (λ k. value_at depth s.now k) s.now at) at (length s.now) result × Kept depth s.now ends.old ends.new }
{
    let k = mark_key(s, at, ends)?;
    inner_value(s, k, depth, ends)
}

// Clears the entries of the first `n` places. By ones, which tell as little as zeros: that is compiled to vector code, not to a call.
fn clear(n: usize, ends: &mut [u16])
    ensures { Cleared n ends.new }
{
    let m = n.min(ends.len());
    ends[..m].fill(1);
}

// A whole text: `Ok` of its length, or `Err` of the first place at which it cannot be a JSON text nested at most 16 deep. The table then tells where the
// arrays, objects and strings without a backslash end that were read, whatever it held before.
pub fn mark(s: &[u8], ends: &mut [u16]) -> Result<usize, usize>
    ensures { Marked s.now result ends.new }
{
    clear(s.len(), ends);
    let e = mark_value(s, skip(s, 0), 16, ends)?;
    let j = skip(s, e);
    if j == s.len() { Ok(j) } else { Err(j) }
}

// Whether the text is one array or object with white space around, nested at most 16 deep.
pub fn is_container(s: &[u8]) -> bool
    ensures { result ≡ is_container s.now }
{
    mark(s, &mut []).is_ok() && is_opening(peek(s, skip(s, 0)))
}

// Past the white space at `e`, and past a comma with its white space.
fn next(s: &[u8], e: usize) -> usize
    ensures { Skipped (next_at s.now e) e (length s.now) result }
{
    let j = skip(s, e);
    if peek(s, j) == 44 { skip(s, j + 1) } else { j }
}

// ---- by the table that `mark` filled: what stands here is stepped over in the same time however long it is. Whatever the table holds the answer
// lies in the text.

// The table's entry for a place, where it can be the end of something there in a text of length n.
fn end_in(n: usize, k: usize, ends: &[u16]) -> Option<usize>
    ensures { Told ends.now k n result }
{
    if k >= ends.len() {
        return None;
    }
    let e = usize::from(ends[k]);
    (k + 1 < e && e <= n).then_some(e)
}

// The string at `at`.
pub fn string_by(s: &[u8], at: usize, ends: &[u16]) -> Result<usize, usize>
    ensures { ScannedIf (Ends s.now ends.now) (string_at s.now at) at (length s.now) result }
{
    if peek(s, at) != 34 {
        return Err(at);
    }
    match end_in(s.len(), at, ends) {
        Some(e) => Ok(e),
        None => string(s, at),
    }
}

// Whether the string at `k` has no backslash; so it is where no string stands.
pub fn is_plain_by(s: &[u8], k: usize, ends: &[u16]) -> bool
    ensures { Ends s.now ends.now → result ≡ is_plain (raw_bytes s.now k) }
{
    end_in(s.len(), k, ends).is_some() || is_plain(s, k)
}

// The value at `k`.
pub fn value_by(s: &[u8], k: usize, ends: &[u16]) -> Result<usize, usize>
    ensures { ScannedIf (Ends s.now ends.now) (value_at 16 s.now k) k (length s.now) result }
{
    match end_in(s.len(), k, ends) {
        Some(e) => Ok(e),
        None => inner_value(s, k, 16, &mut []),
    }
}

// A member's name and its colon: the index of the member's value.
fn key_by(s: &[u8], at: usize, ends: &[u16]) -> Result<usize, usize>
    ensures { ScannedIf (Ends s.now ends.now) (key_at s.now at) at (length s.now) result }
{
    let e = string_by(s, at, ends)?;
    after_name(s, e)
}

// The member whose name's quote is at `i`.
pub fn member_by(s: &[u8], i: usize, ends: &[u16]) -> Option<Item>
    ensures { GotItemIf (Ends s.now ends.now) (member_at s.now i) i (length s.now) result }
{
    let Ok(value) = key_by(s, i, ends) else {
        return None;
    };
    element_by(s, value, ends)
}

// The element at `i`.
pub fn element_by(s: &[u8], i: usize, ends: &[u16]) -> Option<Item>
    ensures { GotItemIf (Ends s.now ends.now) (element_at s.now i) i (length s.now) result }
{
    let Ok(end) = value_by(s, i, ends) else {
        return None;
    };
    Some(Item {
        value: i,
        end,
        next: next(s, end),
    })
}
