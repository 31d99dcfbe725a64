// Datatypes, formats, and judging a property's payload.
#![tactic(auto)]

ghost use Rattle.std.specs.Prelude.{◌≡◌, ◌||◌, ℕ, List};
ghost use Rattle.text.specs.Bytes.{eq_bytes};
ghost use Rattle.entries.specs.Parts.{from};
ghost use Rattle.text.specs.Ascii.{ascii};
ghost use Rattle.payload.specs.Datatypes.{name_of, datatype_named, code_of, datatype_at};
ghost use Rattle.payload.specs.Colors.{floats_up_to, is_color};
ghost use Rattle.payload.specs.Formats.{is_short, is_format, kept_format, given_format, kept_as, kept_bytes, kept_of, when_missing};
ghost use Rattle.payload.specs.Payloads.{is_of, may_be, is_payload, is_payload_of, is_json};
ghost use Rattle.payload.specs.Parts.{After};

use text::Part;

// The most bytes of a kept format, and of a payload.
pub const FORMAT_MOST: usize = 64;

pub const PAYLOAD_MOST: usize = 48;

#[derive(Clone, Copy)]
pub enum Datatype {
    String = 0,
    Integer = 1,
    Float = 2,
    Boolean = 3,
    Enum = 4,
    Color = 5,
    Datetime = 6,
    Duration = 7,
    Json = 8,
}

// What is kept of a valid format: its own bytes, `:`, `false,true`, or the empty string.
#[derive(Clone, Copy)]
pub enum Format {
    AsGiven,
    Colon,
    FalseTrue,
    NotKept,
}

// In the order of their numbers.
const DATATYPES: [Datatype; 9] = [
    Datatype::String,
    Datatype::Integer,
    Datatype::Float,
    Datatype::Boolean,
    Datatype::Enum,
    Datatype::Color,
    Datatype::Datetime,
    Datatype::Duration,
    Datatype::Json,
];

fn name(d: Datatype) -> &'static [u8]
    ensures { result.now ≡ name_of d }
{
    match d {
        Datatype::String => b"string",
        Datatype::Integer => b"integer",
        Datatype::Float => b"float",
        Datatype::Boolean => b"boolean",
        Datatype::Enum => b"enum",
        Datatype::Color => b"color",
        Datatype::Datetime => b"datetime",
        Datatype::Duration => b"duration",
        Datatype::Json => b"json",
    }
}

pub fn read_datatype(s: &[u8]) -> Option<Datatype>
    ensures { result ≡ datatype_named s.now }
{
    for d in DATATYPES {
        if text::same(s, name(d)) {
            return Some(d);
        }
    }
    None
}

// Kept by hand: the number and back are functions, and no `From`. A number past the last is the last by the clause of `datatype_at`, so `TryFrom` would refuse what is taken here; a `From`
// would hide that at its callers.
#[tactic(auto, unfolding(crate::specs::Datatypes::code_of))]
pub fn datatype_code(d: Datatype) -> u8
    ensures { result ≡ code_of d }
{
    d as u8
}

#[tactic(auto, unfolding(crate::specs::Datatypes::datatype_at))]
pub fn datatype_at(code: u8) -> Datatype
    ensures { result ≡ datatype_at code }
{
    DATATYPES
        .get(usize::from(code))
        .copied()
        .unwrap_or(Datatype::Json)
}

// Past the part at `at`, where it is a float from 0 to `most`.
fn component(s: &[u8], at: usize, most: u64) -> Option<usize>
    ensures { After s.now at most result }
{
    let Part { start, end, next } = text::next_part(s, at, b',')?;
    if ranges::is_up_to(&s[start..end], most) {
        Some(next)
    } else {
        None
    }
}

// The parts from `at` on are floats, one for each of `most`, from 0 to it.
fn are_floats(s: &[u8], at: usize, most: &[u64]) -> bool
    ensures { result ≡ floats_up_to most.now (from s.now at) }
{
    let mut next = at;
    for &m in most {
        let Some(after) = component(s, next, m) else {
            return false;
        };
        next = after;
    }
    s.len() < next
}

fn is_color(format: &[u8], s: &[u8]) -> bool
    ensures { result ≡ is_color format.now s.now }
{
    let Some(Part { start, end, next }) = text::next_part(s, 0, b',') else {
        return false;
    };
    let model = &s[start..end];
    if !entries::has(format, model) {
        return false;
    }
    if text::same(model, b"rgb") {
        return are_floats(s, next, &[255, 255, 255]);
    }
    if text::same(model, b"hsv") {
        return are_floats(s, next, &[360, 100, 100]);
    }
    if text::same(model, b"xyz") {
        return are_floats(s, next, &[1, 1]);
    }
    false
}

fn is_short(f: &[u8]) -> bool
    ensures { result ≡ is_short f.now }
{
    f.len() <= FORMAT_MOST
}

// A format that is valid for a datatype.
#[tactic(auto, unfolding(crate::specs::Formats::is_format))]
pub fn is_format(d: Datatype, f: &[u8]) -> bool
    ensures { result ≡ is_format d f.now }
{
    match d {
        Datatype::Integer => is_short(f) && ranges::integer_range(f).is_some(),
        Datatype::Float => is_short(f) && ranges::float_range(f).is_some(),
        Datatype::Boolean => is_short(f) && entries::is_list(f) && entries::count(f) == 2,
        Datatype::Enum => is_short(f) && entries::is_list(f),
        Datatype::Color => is_short(f) && entries::is_list(f) && entries::all_in(f, b"rgb,hsv,xyz"),
        Datatype::String | Datatype::Datetime | Datatype::Duration | Datatype::Json => true,
    }
}

#[tactic(auto, unfolding(crate::specs::Formats::when_missing))]
fn when_missing(d: Datatype) -> Option<Format>
    ensures { (f : List ℕ) → kept_bytes f result ≡ when_missing d }
{
    match d {
        Datatype::Integer | Datatype::Float => Some(Format::Colon),
        Datatype::Boolean => Some(Format::FalseTrue),
        Datatype::Enum | Datatype::Color => None,
        Datatype::String | Datatype::Datetime | Datatype::Duration | Datatype::Json => Some(
            Format::NotKept,
        ),
    }
}

#[tactic(auto, unfolding(crate::specs::Formats::kept_of))]
fn kept(d: Datatype) -> Format
    ensures { (f : List ℕ) → kept_as f result ≡ kept_of d f }
{
    match d {
        Datatype::Integer
        | Datatype::Float
        | Datatype::Boolean
        | Datatype::Enum
        | Datatype::Color => Format::AsGiven,
        Datatype::String | Datatype::Datetime | Datatype::Duration | Datatype::Json =>
            Format::NotKept,
    }
}

// What is kept of a property's format `f`, or where none is given; none where the format is not valid.
// Kept by hand: `given` beside `f`, here and in `judge_payload`. C hands both over, and `KeepsFormat` of `homie5_is_format` speaks of `f` also where none is given.
#[tactic(auto, unfolding(crate::specs::Formats::kept_format))]
pub fn judge_format(d: Datatype, given: bool, f: &[u8]) -> Option<Format>
    ensures { kept_bytes f.now result ≡ kept_format d (given_format given f.now) }
{
    if !given {
        return when_missing(d);
    }
    if !is_format(d, f) {
        return None;
    }
    Some(kept(d))
}

fn is_true_or_false(s: &[u8]) -> bool
    ensures { result ≡ (eq_bytes s.now (ascii "true") || eq_bytes s.now (ascii "false")) }
{
    text::same(s, b"true") || text::same(s, b"false")
}

// One array or object, in UTF-8.
fn is_json(s: &[u8]) -> bool
    ensures { result ≡ is_json s.now }
{
    text::is_utf8(s) && json_text::is_container(s)
}

#[tactic(auto, unfolding(crate::specs::Payloads::is_of))]
fn is_of(d: Datatype, f: &[u8], s: &[u8]) -> bool
    ensures { result ≡ is_of d f.now s.now }
{
    match d {
        Datatype::String => text::is_utf8(s),
        Datatype::Integer => ranges::is_integer(f, s),
        Datatype::Float => ranges::is_float(f, s),
        Datatype::Boolean => is_true_or_false(s),
        Datatype::Enum => entries::has(f, s),
        Datatype::Color => is_color(f, s),
        Datatype::Datetime => times::is_datetime(s),
        Datatype::Duration => times::is_duration(s),
        Datatype::Json => is_json(s),
    }
}

// The single byte 0 is for strings only.
#[tactic(auto, unfolding(crate::specs::Payloads::may_be))]
fn may_be(d: Datatype, s: &[u8]) -> bool
    ensures { result ≡ may_be d s.now }
{
    !text::same(s, b"\0") || matches!(d, Datatype::String)
}

// A payload that is valid for a property of the datatype and the format.
#[tactic(auto, unfolding(crate::specs::Payloads::is_payload))]
pub fn judge(d: Datatype, f: &[u8], s: &[u8]) -> bool
    ensures { result ≡ is_payload d f.now s.now }
{
    !s.is_empty() && s.len() <= PAYLOAD_MOST && may_be(d, s) && is_format(d, f) && is_of(d, f, s)
}

// The bytes that are kept of the format `given`.
fn bytes_of<'a>(kept: Format, given: &'a [u8]) -> &'a [u8]
    ensures { result.now ≡ kept_as given.now kept }
{
    match kept {
        Format::AsGiven => given,
        Format::Colon => b":",
        Format::FalseTrue => b"false,true",
        Format::NotKept => b"",
    }
}

fn judge_missing(d: Datatype, s: &[u8]) -> bool
    ensures { result ≡ is_payload_of d None s.now }
{
    match when_missing(d) {
        Some(kept) => judge(d, bytes_of(kept, b""), s),
        None => false,
    }
}

// A payload that is valid for a property of the datatype that has the format `f`, or where none is given.
pub fn judge_payload(d: Datatype, given: bool, f: &[u8], s: &[u8]) -> bool
    ensures { result ≡ is_payload_of d (given_format given f.now) s.now }
{
    if given {
        return judge(d, f, s);
    }
    judge_missing(d, s)
}
