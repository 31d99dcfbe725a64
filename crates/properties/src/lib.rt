// The properties that a description declares, in the order of node ID and property ID. Answers are right if the table of ends is.
#![tactic(auto)]

ghost use Rattle.std.specs.Prelude.{◌≡◌, true, ◌||◌, List, [], ℕ};
ghost use Rattle.faults.specs.Faults.{least};
ghost use Rattle.payload.specs.Datatypes.{datatype_named};
ghost use Rattle.payload.specs.Formats.{kept_bytes};
ghost use Rattle.ranges.specs.Ranges.{is_some};
ghost use Rattle.text.specs.Bytes.{less_bytes};
ghost use Rattle.json_text.specs.Ends.{Ends};
ghost use Rattle.json_text.specs.Strings.{is_plain};
ghost use Rattle.escapes.specs.Decode.{written};
ghost use Rattle.fields.specs.Values.{string_bytes};
ghost use Rattle.fields.specs.Fields.{decoded_faults};
ghost use Rattle.properties.specs.Property.{datatype_in, datatype_rule, datatype_faults, format_rule, is_kept, type_of, property_field_faults, property_faults, property_at};
ghost use Rattle.fields.specs.Known.{Knows};
ghost use Rattle.fields.specs.declared.Owner.TheVariants as owner;
ghost use Rattle.properties.specs.Parts.{BothPlain, Fetched, stands, ReadsType, JudgesFormat, ReadsFormat, text_faults, flag_faults};
ghost use Rattle.properties.specs.Judged.{Judges};
ghost use Rattle.properties.specs.Entries.{content, view, Inserted};

use faults::{Fault, FaultKind};
use fields::{Field, Kind, Known, Owner};
use payload::{Datatype, Format};

// The most properties that a description may have.
pub const MOST: usize = 24;

// A property: the places of its node's ID and its own, strings in the text, and what it declares.
#[derive(Clone, Copy)]
pub struct Entry {
    pub node: usize,
    pub id: usize,
    pub datatype: Datatype,
    pub format: Option<usize>,
    pub kept: Option<Format>,
    pub settable: bool,
    pub retained: bool,
}

// The first `n` of `items`.
// Kept by hand: without a heap there is no `Vec`.
#[derive(Clone, Copy)]
pub struct Entries {
    pub n: usize,
    pub items: [Entry; MOST],
}

// A property's object judged: what is told of its faults, and if there is none, what it declares.
#[derive(Clone, Copy)]
pub struct Judged {
    pub told: Option<Fault>,
    pub entry: Entry,
}

// A property's datatype, as far as it is named, and its format, as far as it is kept, with what is told of their faults.
#[derive(Clone, Copy)]
pub struct TypeRead {
    pub told: Option<Fault>,
    pub named: Option<Datatype>,
}

#[derive(Clone, Copy)]
pub struct FormatRead {
    pub told: Option<Fault>,
    pub kept: Option<Format>,
}

// Kept by hand: the order is that of decoded strings, and without a heap no type here holds one that could derive it.
// Whether what `a` writes stands before what `b` writes; `plain` tells that neither has a backslash.
fn precedes(a: &[u8], b: &[u8], plain: bool) -> bool
    ensures { BothPlain a.now b.now plain → result ≡ less_bytes (written a.now) (written b.now) }
{
    if plain {
        return text::precedes(a, b);
    }
    escapes::precedes(a, b)
}

// Whether what `id` writes stands before the string at `d`; `plain` tells that `id` has no backslash.
fn id_precedes(s: &[u8], id: &[u8], plain: bool, d: usize, ends: &[u16]) -> bool
    ensures { Ends s.now ends.now → (plain ≡ true → is_plain id.now ≡ true) → result ≡ less_bytes (written id.now) (string_bytes s.now d) }
{
    let other = fields::raw_bytes_by(s, d, ends);
    precedes(id, other, json_text::is_plain_by(s, d, ends) & plain)
}

// Whether the property with these two IDs, the first at `a`, stands before the one whose IDs are at `c` and `d`; `plain` tells that neither of the two has a
// backslash.
fn is_before(
    s: &[u8],
    a: usize,
    node: &[u8],
    id: &[u8],
    plain: bool,
    c: usize,
    d: usize,
    ends: &[u16],
) -> bool
    ensures { Ends s.now ends.now → (b : ℕ) → Fetched s.now a b node.now id.now plain → result ≡ stands s.now a b c d }
{
    if a == c {
        return id_precedes(s, id, plain, d, ends);
    }
    let other = fields::raw_bytes_by(s, c, ends);
    let neither = json_text::is_plain_by(s, c, ends) & plain;
    precedes(node, other, neither)
        || (!precedes(other, node, neither) && id_precedes(s, id, plain, d, ends))
}

// Whether it does, or is in its place already.
fn takes_place(
    s: &[u8],
    placed: bool,
    a: usize,
    node: &[u8],
    id: &[u8],
    plain: bool,
    c: usize,
    d: usize,
    ends: &[u16],
) -> bool
    ensures { Ends s.now ends.now → (b : ℕ) → Fetched s.now a b node.now id.now plain → result ≡ (placed || stands s.now a b c d) }
{
    placed || is_before(s, a, node, id, plain, c, d, ends)
}

// An entry that declares nothing, for the property with these IDs.
pub fn blank(node: usize, id: usize) -> Entry
    ensures { (result.node ≡ node) × (result.id ≡ id) }
{
    Entry {
        node,
        id,
        datatype: Datatype::String,
        format: None,
        kept: Some(Format::NotKept),
        settable: false,
        retained: false,
    }
}

// The list of no properties.
pub fn empty() -> Entries
    ensures { ((s : List ℕ) → view s result ≡ []) × (result.n ≡ 0) }
{
    let e = blank(0, 0);
    Entries {
        n: 0,
        items: [e; MOST],
    }
}

// The list with one more, in its place; a full one stays as it is.
pub fn insert(s: &[u8], e: Entry, l: Entries, ends: &[u16]) -> Entries
    ensures { Ends s.now ends.now → Inserted s.now (content s.now e) l result }
{
    let n = l.n;
    let mut items = l.items;
    if n >= MOST {
        return l;
    }
    let node = fields::raw_bytes_by(s, e.node, ends);
    let id = fields::raw_bytes_by(s, e.id, ends);
    let plain = json_text::is_plain_by(s, e.node, ends) & json_text::is_plain_by(s, e.id, ends);
    let mut carry = e;
    let mut placed = false;
    for j in 0..n {
        let y = items[j];
        placed = takes_place(s, placed, e.node, node, id, plain, y.node, y.id, ends);
        if placed {
            items[j] = carry;
            carry = y;
        }
    }
    items[n] = carry;
    Entries { n: n + 1, items }
}

// The datatype that the bytes `t` of a string at `value` name.
fn type_named(value: usize, t: &[u8]) -> TypeRead
    ensures { ReadsType (datatype_rule value t.now) (datatype_named t.now) result }
{
    let name = payload::read_datatype(t);
    match name {
        None => TypeRead {
            told: Some(FaultKind::RuleBroken.at(value)),
            named: name,
        },
        Some(_) => TypeRead {
            told: None,
            named: name,
        },
    }
}

// The datatype that the string at `k` names, decoded.
fn decoded_type(s: &[u8], k: usize) -> TypeRead
    ensures { ReadsType (decoded_faults s.now k (datatype_rule k)) (datatype_named (string_bytes s.now k)) result }
{
    let mut name = [0u8; 16];
    match fields::decode_at(s, k, &mut name) {
        Err(p) => TypeRead {
            told: Some(FaultKind::RuleBroken.at(p)),
            named: None,
        },
        Ok(n) => {
            if n > 16 {
                return TypeRead {
                    told: Some(FaultKind::RuleBroken.at(k)),
                    named: None,
                };
            }
            type_named(k, text::slice(&name, 0, n))
        }
    }
}

// The datatype that a field names, of the property whose object is at `at`.
fn datatype_of(s: &[u8], at: usize, f: Option<usize>, ends: &[u16]) -> TypeRead
    ensures { Ends s.now ends.now → ReadsType (datatype_faults s.now at f) (datatype_in s.now f) result }
{
    let Some(value) = f else {
        let close = fields::close_of(s, at, ends);
        return TypeRead {
            told: Some(FaultKind::FieldMissing.at(close)),
            named: None,
        };
    };
    if !fields::is_string(s, value) {
        return TypeRead {
            told: Some(FaultKind::WrongKind.at(value)),
            named: None,
        };
    }
    let name = payload::read_datatype(fields::raw_bytes_by(s, value, ends));
    match name {
        None => decoded_type(s, value),
        Some(_) => TypeRead {
            told: None,
            named: name,
        },
    }
}

// Whether the datatype's format is kept.
#[tactic(auto, unfolding(crate::specs::Property::is_kept))]
fn is_kept(d: Datatype) -> bool
    ensures { result ≡ is_kept d }
{
    matches!(
        d,
        Datatype::Integer | Datatype::Float | Datatype::Boolean | Datatype::Enum | Datatype::Color
    )
}

// The format whose bytes are `t`, of the string at `place`, for a datatype whose format is kept.
fn judged_format(d: Datatype, place: usize, t: &[u8]) -> FormatRead
    ensures { JudgesFormat (format_rule d place t.now) result }
{
    if payload::is_format(d, t) {
        return FormatRead {
            told: None,
            kept: Some(Format::AsGiven),
        };
    }
    FormatRead {
        told: Some(FaultKind::RuleBroken.at(place)),
        kept: None,
    }
}

// The format in the string at `i`, decoded, for such a datatype.
fn decoded_format(s: &[u8], d: Datatype, i: usize) -> FormatRead
    ensures { is_kept d ≡ true → JudgesFormat (decoded_faults s.now i (format_rule d i)) result }
{
    let mut format = [0u8; payload::FORMAT_MOST];
    match fields::decode_at(s, i, &mut format) {
        Err(half) => FormatRead {
            told: Some(FaultKind::RuleBroken.at(half)),
            kept: None,
        },
        Ok(n) => {
            if n > payload::FORMAT_MOST {
                return FormatRead {
                    told: Some(FaultKind::RuleBroken.at(i)),
                    kept: None,
                };
            }
            judged_format(d, i, text::slice(&format, 0, n))
        }
    }
}

// The format that stands at `place`, of a property of datatype d.
fn given_format(s: &[u8], d: Datatype, place: usize, ends: &[u16]) -> FormatRead
    ensures { Ends s.now ends.now → (at : ℕ) → ReadsFormat s.now at (Some d) (Some place) result }
{
    if !fields::is_string(s, place) {
        return FormatRead {
            told: Some(FaultKind::WrongKind.at(place)),
            kept: Some(Format::NotKept),
        };
    }
    if !is_kept(d) {
        return FormatRead {
            told: None,
            kept: Some(Format::NotKept),
        };
    }
    let raw = fields::raw_bytes_by(s, place, ends);
    let unescaped = json_text::is_plain_by(s, place, ends);
    if unescaped {
        return judged_format(d, place, raw);
    }
    decoded_format(s, d, place)
}

// What is kept where no format is given to the property of datatype d whose object is at `at`.
fn no_format(s: &[u8], at: usize, d: Datatype, ends: &[u16]) -> FormatRead
    ensures { Ends s.now ends.now → ReadsFormat s.now at (Some d) None result }
{
    let Some(kept) = payload::judge_format(d, false, &s[..0]) else {
        let brace = fields::close_of(s, at, ends);
        return FormatRead {
            told: Some(FaultKind::FieldMissing.at(brace)),
            kept: None,
        };
    };
    FormatRead {
        told: None,
        kept: Some(kept),
    }
}

// The format of the property whose object is at `at`, by its datatype.
fn format_of(
    s: &[u8],
    at: usize,
    name: Option<Datatype>,
    f: Option<usize>,
    ends: &[u16],
) -> FormatRead
    ensures { Ends s.now ends.now → ReadsFormat s.now at name f result }
{
    let Some(d) = name else {
        return FormatRead {
            told: fields::field_told(s, f, Kind::Text, ends),
            kept: Some(Format::NotKept),
        };
    };
    match f {
        None => no_format(s, at, d, ends),
        Some(k) => given_format(s, d, k, ends),
    }
}

// What is told of the fields `name` and `unit`.
fn texts_told(s: &[u8], m: &Known, ends: &[u16]) -> Option<Fault>
    ensures { Ends s.now ends.now → result ≡ least (text_faults s.now m.now.seen) }
{
    let name = fields::field_told(s, m.get(Field::Name), Kind::Text, ends);
    let unit = fields::field_told(s, m.get(Field::Unit), Kind::Text, ends);
    faults::earlier(name, unit)
}

// What is told of the fields `settable` and `retained`.
fn flags_told(s: &[u8], m: &Known, ends: &[u16]) -> Option<Fault>
    ensures { Ends s.now ends.now → result ≡ least (flag_faults s.now m.now.seen) }
{
    let settable = fields::field_told(s, m.get(Field::Settable), Kind::Flag, ends);
    let retained = fields::field_told(s, m.get(Field::Retained), Kind::Flag, ends);
    faults::earlier(settable, retained)
}

#[tactic(auto, unfolding(crate::specs::Property::type_of))]
fn type_of(name: Option<Datatype>) -> Datatype
    ensures { result ≡ type_of name }
{
    name.unwrap_or(Datatype::String)
}

// The property whose object is at `k` and has these fields, named by the strings at `n` and `i`.
fn property_by(s: &[u8], n: usize, i: usize, k: usize, m: Known, ends: &[u16]) -> Judged
    ensures { Ends s.now ends.now → Knows owner.Property s.now k m → Judges (property_field_faults s.now k) (property_at s.now n i k) s.now result }
{
    let names = m.told;
    let d = datatype_of(s, k, m.get(Field::Datatype), ends);
    let name = d.named;
    let typed = d.told;
    let given = m.get(Field::Format);
    let f = format_of(s, k, name, given, ends);
    let kept = f.kept;
    let formed = f.told;
    let e = Entry {
        node: n,
        id: i,
        datatype: type_of(name),
        format: given,
        kept,
        settable: fields::flag_in(s, m.get(Field::Settable), false),
        retained: fields::flag_in(s, m.get(Field::Retained), true),
    };
    let first = faults::earlier(names, typed);
    let second = faults::earlier(texts_told(s, &m, ends), formed);
    let third = faults::earlier(second, flags_told(s, &m, ends));
    Judged {
        told: faults::earlier(first, third),
        entry: e,
    }
}

// The property whose object is at `k`, named by the strings at `node` and `id`.
pub fn property_at(s: &[u8], node: usize, id: usize, k: usize, ends: &[u16]) -> Judged
    ensures { Ends s.now ends.now → Judges (property_faults s.now k) (property_at s.now node id k) s.now result }
{
    if !fields::is_object(s, k) {
        return Judged {
            told: Some(FaultKind::WrongKind.at(k)),
            entry: blank(node, id),
        };
    }
    property_by(
        s,
        node,
        id,
        k,
        fields::known_fields(Owner::Property, s, k, ends),
        ends,
    )
}
