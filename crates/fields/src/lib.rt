// The values of a JSON text, and the known fields of its objects: what is told of them, and where they stand. Where a function takes a table of ends, as
// `json_text::mark` fills it, its answer is right if the table is.
// Kept by hand: the walks of `first_named`, `known_fields` and `array_told` need the place `i` of each name beside its member, and `member_by` tells the next one;
// an iterator would be a type with ghost members that say again what `member_by` ensures.
#![tactic(auto)]

ghost use Rattle.std.specs.Prelude.{◌≡◌, ◌||◌, ◌<◌, slice_index};
ghost use Rattle.faults.specs.Faults.{fault, earlier, least, ◌otherwise◌};
ghost use Rattle.json_text.specs.Ends.{Ends};
ghost use Rattle.json_text.specs.Strings.{raw_bytes, is_plain};
ghost use Rattle.escapes.specs.Decode.{whole, decode, alike};
ghost use Rattle.fields.specs.Values.{value_bytes, decoded_at, string_bytes, is_string_at, is_object, is_true, is_flag, is_number_at, DecodesAt};
ghost use Rattle.fields.specs.Parts.{item_faults, number_in, number_of, Classified, is_known_number, seen_faults, Saw};
ghost use Rattle.fields.specs.Fields.{field, is_present, first_of, is_first, flag_in, string_faults, decoded_faults, no_rule, id_rule, id_faults, array_faults, kind_faults, field_faults, close_at};
ghost use Rattle.fields.specs.Known.{number, field_at, Knows, IsMember};

use faults::{Fault, FaultKind};

// What a known field may hold.
#[derive(Clone, Copy)]
pub enum Kind {
    Text,
    Flag,
    Object,
    Ids,
    Texts,
}

// What an object describes: its known fields differ.
#[derive(Clone, Copy)]
pub enum Owner {
    Device,
    Node,
    Property,
}

// The known fields of the objects of a description.
#[derive(Clone, Copy)]
pub enum Field {
    Name,
    Type,
    Unit,
    Root,
    Homie,
    Nodes,
    Parent,
    Format,
    Version,
    Datatype,
    Settable,
    Retained,
    Children,
    Properties,
    Extensions,
}

impl Field {
    // Its number, from 0 to 14.
    fn number(self) -> usize
        ensures is { result ≡ number self }
        ensures low { result < 15 }
    {
        self as usize
    }

    // The known field of that name.
    // Kept by hand: a match on byte strings was tried, and its proof has a goal for each of their bytes.
    fn named(t: &[u8]) -> Option<Field>
        ensures { number_in result ≡ number_of t.now }
    {
        match t.len() {
            4 if text::same(t, b"name") => Some(Field::Name),
            4 if text::same(t, b"type") => Some(Field::Type),
            4 if text::same(t, b"unit") => Some(Field::Unit),
            4 if text::same(t, b"root") => Some(Field::Root),
            5 if text::same(t, b"homie") => Some(Field::Homie),
            5 if text::same(t, b"nodes") => Some(Field::Nodes),
            6 if text::same(t, b"parent") => Some(Field::Parent),
            6 if text::same(t, b"format") => Some(Field::Format),
            7 if text::same(t, b"version") => Some(Field::Version),
            8 if text::same(t, b"datatype") => Some(Field::Datatype),
            8 if text::same(t, b"settable") => Some(Field::Settable),
            8 if text::same(t, b"retained") => Some(Field::Retained),
            8 if text::same(t, b"children") => Some(Field::Children),
            10 if text::same(t, b"properties") => Some(Field::Properties),
            10 if text::same(t, b"extensions") => Some(Field::Extensions),
            _ => None,
        }
    }
}

// What is told of an object's names, and of each known field, by its number, the place of its first value; 0 where there is none.
// Kept by hand: without a heap there is no map, and `seen` of this type is public, so its places stay numbers.
#[derive(Clone, Copy)]
pub struct Known {
    pub told: Option<Fault>,
    pub seen: [usize; 16],
}

impl Known {
    // The known field.
    pub fn get(&self, field: Field) -> Option<usize>
        ensures { result ≡ field_at self.now.seen (number field) }
    {
        field_at(&self.seen, field.number())
    }
}

// The bytes of the value at `k`.
pub fn value_bytes_by<'a>(s: &'a [u8], k: usize, ends: &[u16]) -> &'a [u8]
    ensures { Ends s.now ends.now → result.now ≡ value_bytes s.now k }
{
    match json_text::value_by(s, k, ends) {
        Err(_) => &s[..0],
        Ok(e) => text::slice(s, k, e),
    }
}

// The bytes between the quotes of the string at `k`, as sent.
pub fn raw_bytes(s: &[u8], k: usize) -> &[u8]
    ensures { result.now ≡ raw_bytes s.now k }
{
    match json_text::string::string(s, k) {
        Err(_) => &s[..0],
        Ok(e) => text::slice(s, k + 1, e - 1),
    }
}

// The same, by the table.
pub fn raw_bytes_by<'a>(s: &'a [u8], k: usize, ends: &[u16]) -> &'a [u8]
    ensures { Ends s.now ends.now → result.now ≡ raw_bytes s.now k }
{
    match json_text::string_by(s, k, ends) {
        Err(_) => &s[..0],
        Ok(end) => text::slice(s, k + 1, end - 1),
    }
}

pub fn is_string(s: &[u8], k: usize) -> bool
    ensures { result ≡ is_string_at s.now k }
{
    json_text::peek(s, k) == 34
}

pub fn is_object(s: &[u8], k: usize) -> bool
    ensures { result ≡ is_object s.now k }
{
    json_text::peek(s, k) == 123
}

fn is_true(s: &[u8], k: usize) -> bool
    ensures { result ≡ is_true s.now k }
{
    json_text::peek(s, k) == 116
}

#[tactic(auto, unfolding(crate::specs::Values::is_flag))]
fn is_flag(s: &[u8], k: usize) -> bool
    ensures { result ≡ is_flag s.now k }
{
    is_true(s, k) || json_text::peek(s, k) == 102
}

// The string at `k` decoded to the front of a buffer, if it fits: how many bytes it has, or the place of half a surrogate pair in it.
pub fn decode_at(s: &[u8], k: usize, out: &mut [u8]) -> Result<usize, usize>
    ensures { DecodesAt s.now k out.old out.new result }
{
    match escapes::decode(raw_bytes(s, k), out) {
        Ok(n) => Ok(n),
        Err(p) => Err(k + 1 + p),
    }
}

// What is told of half a surrogate pair in the string at `k`.
pub fn half_told(s: &[u8], k: usize, ends: &[u16]) -> Option<Fault>
    ensures { Ends s.now ends.now → result ≡ least (decoded_faults s.now k no_rule) }
{
    if json_text::is_plain_by(s, k, ends) {
        return None;
    }
    match escapes::half(raw_bytes(s, k)) {
        None => None,
        Some(p) => Some(FaultKind::RuleBroken.at(k + 1 + p)),
    }
}

// Whether a number begins at `k`.
#[tactic(auto, unfolding(crate::specs::Values::is_number_at, json_text::specs::Number::is_digit))]
pub fn is_number(s: &[u8], k: usize) -> bool
    ensures { result ≡ is_number_at s.now k }
{
    let b = json_text::peek(s, k);
    b == 45 || matches!(b, 48..=57)
}

// Where the object at `at` is closed.
pub fn close_of(s: &[u8], at: usize, ends: &[u16]) -> usize
    ensures { Ends s.now ends.now → result ≡ close_at s.now at }
{
    match json_text::value_by(s, at, ends) {
        Err(_) => at,
        Ok(e) => e - 1,
    }
}

// Whether the string at `j` is what `raw` writes; `plain` tells that `raw` has no backslash.
fn is_alike(s: &[u8], j: usize, raw: &[u8], plain: bool, ends: &[u16]) -> bool
    ensures { Ends s.now ends.now → (plain ≡ is_plain raw.now) → result ≡ alike (decode raw.now) (decoded_at s.now j) }
{
    let other = raw_bytes_by(s, j, ends);
    if plain && json_text::is_plain_by(s, j, ends) {
        return text::same(other, raw);
    }
    escapes::same_both(raw, other)
}

// The first member of the object at `at` with the name of the one whose name is at `own` and whose value is at `value`, by the place of its value.
fn first_named(s: &[u8], at: usize, own: usize, value: usize, ends: &[u16]) -> Option<usize>
    ensures { Ends s.now ends.now → decoded_at s.now own ≡ whole (string_bytes s.now own) → IsMember s.now own value → result ≡ field s.now at (string_bytes s.now own) }
{
    if json_text::peek(s, at) != 123 {
        return None;
    }
    let raw = raw_bytes_by(s, own, ends);
    let plain = json_text::is_plain_by(s, own, ends);
    let mut i = json_text::skip(s, at + 1);
    while i != own {
        let member = json_text::member_by(s, i, ends)?;
        if is_alike(s, i, raw, plain, ends) {
            return Some(member.value);
        }
        i = member.next;
    }
    Some(value)
}

fn is_first(k: usize, f: Option<usize>) -> bool
    ensures { result ≡ is_first k f }
{
    f == Some(k)
}

// Whether the member whose name is at `i` and whose value is at `k` is the first of its name in the object at `at`.
pub fn comes_first(s: &[u8], at: usize, i: usize, k: usize, ends: &[u16]) -> bool
    ensures { Ends s.now ends.now → IsMember s.now i k → result ≡ first_of s.now at k (decoded_at s.now i) }
{
    match half_told(s, i, ends) {
        Some(_) => true,
        None => is_first(k, first_named(s, at, i, k, ends)),
    }
}

// Whether the field is a known one of such an object.
#[tactic(auto, unfolding(crate::specs::Parts::is_known_number))]
fn is_known(owner: Owner, field: Field) -> bool
    ensures { result ≡ is_known_number owner (number field) }
{
    match owner {
        Owner::Device => matches!(
            field,
            Field::Homie
                | Field::Version
                | Field::Nodes
                | Field::Name
                | Field::Type
                | Field::Children
                | Field::Root
                | Field::Parent
                | Field::Extensions
        ),
        Owner::Node => matches!(field, Field::Name | Field::Type | Field::Properties),
        Owner::Property => matches!(
            field,
            Field::Datatype
                | Field::Name
                | Field::Unit
                | Field::Format
                | Field::Settable
                | Field::Retained
        ),
    }
}

// The known field that the name at `i` names, which has a backslash.
fn escaped_field(s: &[u8], i: usize) -> Option<Field>
    ensures { Classified (decoded_at s.now i) (number_in result) }
{
    let mut name = [0u8; 16];
    match decode_at(s, i, &mut name) {
        Err(_) => None,
        Ok(n) => {
            if n > 16 {
                return None;
            }
            Field::named(text::slice(&name, 0, n))
        }
    }
}

// The known field that the name at `i` names.
fn named_at(s: &[u8], i: usize, ends: &[u16]) -> Option<Field>
    ensures { Ends s.now ends.now → Classified (decoded_at s.now i) (number_in result) }
{
    let field = Field::named(raw_bytes_by(s, i, ends));
    if field.is_some() {
        return field;
    }
    if json_text::is_plain_by(s, i, ends) {
        return None;
    }
    escaped_field(s, i)
}

// The first of what is told and what is told of the name at `i`, which names that field, after the members in `seen`.
fn more_told(
    told: Option<Fault>,
    owner: Owner,
    s: &[u8],
    name: Option<Field>,
    seen: &[usize; 16],
    i: usize,
    ends: &[u16],
) -> Option<Fault>
    ensures { Ends s.now ends.now → Classified (decoded_at s.now i) (number_in name) → result ≡ earlier told (least (seen_faults owner (decoded_at s.now i) (slice_index seen.now (number_in name)) i)) }
{
    let Some(field) = name else {
        return faults::earlier(told, half_told(s, i, ends));
    };
    let first = seen[field.number()];
    if first == 0 {
        return told;
    }
    if is_known(owner, field) {
        return faults::earlier(told, Some(FaultKind::NameRepeated.at(i)));
    }
    told
}

// One member more of that name, its value at `k`.
fn see(seen: &mut [usize; 16], name: Option<Field>, k: usize)
    ensures { Saw (number_in name) k seen.old seen.new }
{
    let Some(field) = name else {
        return;
    };
    let c = field.number();
    if seen[c] == 0 {
        seen[c] = k;
    }
}

// What the members of the object at `at` are named, by one walk through it.
pub fn known_fields(owner: Owner, s: &[u8], at: usize, ends: &[u16]) -> Known
    ensures { Ends s.now ends.now → Knows owner s.now at result }
{
    let mut seen = [0usize; 16];
    let mut told = None;
    if json_text::peek(s, at) != 123 {
        return Known { told, seen };
    }
    let mut i = json_text::skip(s, at + 1);
    while let Some(member) = json_text::member_by(s, i, ends) {
        let name = named_at(s, i, ends);
        told = more_told(told, owner, s, name, &seen, i, ends);
        see(&mut seen, name, member.value);
        i = member.next;
    }
    Known { told, seen }
}

// The known field with that number; none past the last.
// Kept by hand: docs/ARCHITECTURE.md names it, and it answers for a number that is no `Field` too (must-fail/past_last.edit).
pub fn field_at(seen: &[usize; 16], c: usize) -> Option<usize>
    ensures { c < 16 → result ≡ field_at seen.now c }
{
    if c >= 16 {
        return None;
    }
    let k = seen[c];
    if k == 0 {
        return None;
    }
    Some(k)
}

pub fn is_present(f: Option<usize>) -> bool
    ensures { result ≡ is_present f }
{
    f.is_some()
}

// What is told of a rule at `place`.
fn rule_told(holds: bool, place: usize, kind: FaultKind) -> Option<Fault>
    ensures { result ≡ least (holds otherwise fault place kind) }
{
    if holds {
        return None;
    }
    Some(kind.at(place))
}

// What is told of a value that should be a string.
pub fn string_told(s: &[u8], k: usize) -> Option<Fault>
    ensures { result ≡ least (string_faults s.now k) }
{
    rule_told(is_string(s, k), k, FaultKind::WrongKind)
}

// What is told of the string at `k`, which has a backslash and should be an ID.
fn escaped_id_told(s: &[u8], k: usize) -> Option<Fault>
    ensures { result ≡ least (decoded_faults s.now k (id_rule k)) }
{
    let mut id = [0u8; 32];
    match decode_at(s, k, &mut id) {
        Err(p) => Some(FaultKind::RuleBroken.at(p)),
        Ok(n) => {
            if n > 32 {
                return Some(FaultKind::RuleBroken.at(k));
            }
            let is_id = text::is_id(text::slice(&id, 0, n));
            rule_told(is_id, k, FaultKind::RuleBroken)
        }
    }
}

// What is told of a string that should be an ID.
pub fn id_name_told(s: &[u8], k: usize, ends: &[u16]) -> Option<Fault>
    ensures { Ends s.now ends.now → result ≡ least (decoded_faults s.now k (id_rule k)) }
{
    if text::is_id(raw_bytes_by(s, k, ends)) {
        return None;
    }
    if json_text::is_plain_by(s, k, ends) {
        return Some(FaultKind::RuleBroken.at(k));
    }
    escaped_id_told(s, k)
}

// What is told of a value that should be a string that is an ID.
fn id_told(s: &[u8], k: usize, ends: &[u16]) -> Option<Fault>
    ensures { Ends s.now ends.now → result ≡ least (id_faults s.now k) }
{
    if !is_string(s, k) {
        return Some(FaultKind::WrongKind.at(k));
    }
    id_name_told(s, k, ends)
}

fn item_told(s: &[u8], k: usize, ids: bool, ends: &[u16]) -> Option<Fault>
    ensures { Ends s.now ends.now → result ≡ least (item_faults ids s.now k) }
{
    if ids {
        return id_told(s, k, ends);
    }
    string_told(s, k)
}

// What is told of a value that should be an array of IDs or of strings.
fn array_told(s: &[u8], at: usize, ids: bool, ends: &[u16]) -> Option<Fault>
    ensures { Ends s.now ends.now → result ≡ least (array_faults (item_faults ids) s.now at) }
{
    if json_text::peek(s, at) != 91 {
        return Some(FaultKind::WrongKind.at(at));
    }
    let mut told = None;
    let mut i = json_text::skip(s, at + 1);
    while let Some(element) = json_text::element_by(s, i, ends) {
        told = faults::earlier(told, item_told(s, element.value, ids, ends));
        i = element.next;
    }
    told
}

fn kind_told(s: &[u8], k: usize, kind: Kind, ends: &[u16]) -> Option<Fault>
    ensures { Ends s.now ends.now → result ≡ least (kind_faults kind s.now k) }
{
    match kind {
        Kind::Text => string_told(s, k),
        Kind::Flag => rule_told(is_flag(s, k), k, FaultKind::WrongKind),
        Kind::Object => rule_told(is_object(s, k), k, FaultKind::WrongKind),
        Kind::Ids => array_told(s, k, true, ends),
        Kind::Texts => array_told(s, k, false, ends),
    }
}

// What is told of a field that may be absent, and else holds a value of that kind.
pub fn field_told(s: &[u8], f: Option<usize>, kind: Kind, ends: &[u16]) -> Option<Fault>
    ensures { Ends s.now ends.now → result ≡ least (field_faults kind s.now f) }
{
    match f {
        None => None,
        Some(k) => kind_told(s, k, kind, ends),
    }
}

// The boolean that a field holds, or what holds where it is absent.
pub fn flag_in(s: &[u8], f: Option<usize>, default: bool) -> bool
    ensures { result ≡ flag_in s.now default f }
{
    match f {
        None => default,
        Some(k) => is_true(s, k),
    }
}
