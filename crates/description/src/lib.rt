// A device's description: judged, and what it declares.
#![tactic(auto)]

ghost use Rattle.std.specs.Prelude.{◌≡◌, true, false, ℕ, ◌≤◌, List, length};
ghost use Rattle.text.specs.Utf8.{is_utf8};
ghost use Rattle.json_grammar.specs.Place.{fault_place};
ghost use Rattle.faults.specs.Faults.{least, not_json};
ghost use Rattle.json_text.specs.Ends.{Ends};
ghost use Rattle.fields.specs.Fields.{decoded_faults};
ghost use Rattle.fields.specs.Known.{Knows};
ghost use Rattle.fields.specs.declared.Owner.TheVariants as owner;
ghost use Rattle.description.specs.Description.{all_digits, is_minor, is_homie, homie_rule, homie_faults, relative_faults, root_faults, parent_rule, parent_faults, device_field_faults, device_faults, told, describe};
ghost use Rattle.description.specs.Parts.{ReadsVersion, other_faults_in, relatives_in, Tells};
ghost use Rattle.description.specs.Meaning.{meaning};

use faults::{Fault, FaultKind};
use fields::{Field, Kind, Known, Owner};
use properties::Entries;

// The most bytes that a description may have.
const MOST: usize = 8192;

// What is told of a description's faults, and if there is none, what it declares: `version` stands for the number less 2^63, root and parent are places in
// the text.
#[derive(Clone, Copy)]
pub struct Description {
    pub told: Option<Fault>,
    pub version: u64,
    pub root: Option<usize>,
    pub parent: Option<usize>,
    pub properties: Entries,
}

// A device's version, with what is told of its faults.
#[derive(Clone, Copy)]
pub struct VersionRead {
    pub told: Option<Fault>,
    pub value: u64,
}

fn are_digits(t: &[u8]) -> bool
    ensures { result ≡ all_digits t.now }
{
    t.iter().all(|b| b.is_ascii_digit())
}

// Whether the bytes are 1 to 3 digits, with no leading zero unless they are `0`.
#[tactic(auto, unfolding(crate::specs::Description::is_minor))]
fn is_minor(t: &[u8]) -> bool
    ensures { result ≡ is_minor t.now }
{
    matches!(t.len(), 1..=3) && are_digits(t) && (t[0] != 48 || t.len() == 1)
}

// Whether the bytes are `5.` and a minor version.
fn is_homie(t: &[u8]) -> bool
    ensures { result ≡ is_homie t.now }
{
    text::same(text::slice(t, 0, 2), b"5.") && is_minor(text::slice(t, 2, t.len()))
}

// What is told of the string at `k`, which has a backslash and should be a version of the convention.
fn escaped_homie_told(s: &[u8], k: usize) -> Option<Fault>
    ensures { result ≡ least (decoded_faults s.now k (homie_rule k)) }
{
    let mut version = [0u8; 8];
    match fields::decode_at(s, k, &mut version) {
        Err(backslash) => Some(FaultKind::RuleBroken.at(backslash)),
        Ok(n) => {
            if n > 8 {
                return Some(FaultKind::RuleBroken.at(k));
            }
            if is_homie(text::slice(&version, 0, n)) {
                return None;
            }
            Some(FaultKind::RuleBroken.at(k))
        }
    }
}

// What is told of `homie` in the object at `at`.
fn homie_told(s: &[u8], at: usize, f: Option<usize>, ends: &[u16]) -> Option<Fault>
    ensures { Ends s.now ends.now → result ≡ least (homie_faults s.now at f) }
{
    let Some(k) = f else {
        return Some(FaultKind::FieldMissing.at(fields::close_of(s, at, ends)));
    };
    if !fields::is_string(s, k) {
        return Some(FaultKind::WrongKind.at(k));
    }
    if is_homie(fields::raw_bytes_by(s, k, ends)) {
        return None;
    }
    if json_text::is_plain_by(s, k, ends) {
        return Some(FaultKind::RuleBroken.at(k));
    }
    escaped_homie_told(s, k)
}

// No version, since this is told of it.
fn no_version(told: Option<Fault>) -> VersionRead
    ensures { result.told ≡ told }
{
    VersionRead { told, value: 0 }
}

// The version that a field holds, of the device whose object is at `at`.
fn version_of(s: &[u8], at: usize, f: Option<usize>, ends: &[u16]) -> VersionRead
    ensures { Ends s.now ends.now → ReadsVersion s.now at f result }
{
    let Some(k) = f else {
        return no_version(Some(FaultKind::FieldMissing.at(fields::close_of(s, at, ends))));
    };
    if !fields::is_number(s, k) {
        return no_version(Some(FaultKind::WrongKind.at(k)));
    }
    match numbers::integers::read_integer(fields::value_bytes_by(s, k, ends)) {
        None => no_version(Some(FaultKind::RuleBroken.at(k))),
        Some(v) => VersionRead {
            told: None,
            value: v,
        },
    }
}

// What is told of the fields that have no rule but their kind.
fn others_told(s: &[u8], m: &Known, ends: &[u16]) -> Option<Fault>
    ensures { Ends s.now ends.now → result ≡ least (other_faults_in s.now m.now.seen) }
{
    let nodes = fields::field_told(s, m.get(Field::Nodes), Kind::Object, ends);
    let name = fields::field_told(s, m.get(Field::Name), Kind::Text, ends);
    let kind = fields::field_told(s, m.get(Field::Type), Kind::Text, ends);
    let children = fields::field_told(s, m.get(Field::Children), Kind::Ids, ends);
    let extensions = fields::field_told(s, m.get(Field::Extensions), Kind::Texts, ends);
    let arrays = faults::earlier(children, extensions);
    let texts = faults::earlier(name, faults::earlier(kind, arrays));
    faults::earlier(nodes, texts)
}

// What is told of the bytes of a string at `k`, which should be the ID of another device.
fn relative_rule(own: &[u8], k: usize, id: &[u8]) -> Option<Fault>
    ensures { result ≡ least (relative_faults own.now k id.now) }
{
    if !text::is_id(id) {
        return Some(FaultKind::RuleBroken.at(k));
    }
    if text::same(id, own) {
        return Some(FaultKind::RuleBroken.at(k));
    }
    None
}

// The same of the string itself, which has a backslash.
fn escaped_relative_told(own: &[u8], s: &[u8], k: usize) -> Option<Fault>
    ensures { result ≡ least (decoded_faults s.now k (relative_faults own.now k)) }
{
    let mut id = [0u8; 32];
    match fields::decode_at(s, k, &mut id) {
        Err(place) => Some(FaultKind::RuleBroken.at(place)),
        Ok(n) => {
            if n > 32 {
                return Some(FaultKind::RuleBroken.at(k));
            }
            relative_rule(own, k, text::slice(&id, 0, n))
        }
    }
}

// What is told of the string at `k`, which should be the ID of another device.
fn relative_told(own: &[u8], s: &[u8], k: usize, ends: &[u16]) -> Option<Fault>
    ensures { Ends s.now ends.now → result ≡ least (decoded_faults s.now k (relative_faults own.now k)) }
{
    if json_text::is_plain_by(s, k, ends) {
        return relative_rule(own, k, fields::raw_bytes_by(s, k, ends));
    }
    escaped_relative_told(own, s, k)
}

fn root_told(own: &[u8], s: &[u8], f: Option<usize>, ends: &[u16]) -> Option<Fault>
    ensures { Ends s.now ends.now → result ≡ least (root_faults own.now s.now f) }
{
    let Some(root) = f else {
        return None;
    };
    if !fields::is_string(s, root) {
        return Some(FaultKind::WrongKind.at(root));
    }
    relative_told(own, s, root, ends)
}

// What is told of the string at `k`, a `parent` without `root`.
fn rootless_told(s: &[u8], k: usize, ends: &[u16]) -> Option<Fault>
    ensures { Ends s.now ends.now → (own : List ℕ) → result ≡ least (decoded_faults s.now k (parent_rule own false k)) }
{
    fields::half_told(s, k, ends).or(Some(FaultKind::RuleBroken.at(k)))
}

// What is told of `parent`, which needs `root`.
fn parent_told(
    own: &[u8],
    s: &[u8],
    root: Option<usize>,
    f: Option<usize>,
    ends: &[u16],
) -> Option<Fault>
    ensures { Ends s.now ends.now → result ≡ least (parent_faults own.now s.now root f) }
{
    let Some(parent) = f else {
        return None;
    };
    if !fields::is_string(s, parent) {
        return Some(FaultKind::WrongKind.at(parent));
    }
    if !fields::is_present(root) {
        return rootless_told(s, parent, ends);
    }
    relative_told(own, s, parent, ends)
}

// What is told of root and parent.
fn relatives_told(own: &[u8], s: &[u8], m: &Known, ends: &[u16]) -> Option<Fault>
    ensures { Ends s.now ends.now → result ≡ least (relatives_in own.now s.now m.now.seen) }
{
    let root = m.get(Field::Root);
    let parent = m.get(Field::Parent);
    faults::earlier(
        root_told(own, s, root, ends),
        parent_told(own, s, root, parent, ends),
    )
}

// A description of which this is told.
fn refused(told: Option<Fault>) -> Description
    ensures { result.told ≡ told }
{
    Description {
        told,
        version: 0,
        root: None,
        parent: None,
        properties: properties::empty(),
    }
}

// What the device whose object is at `at` and has these fields declares.
fn device_by(own: &[u8], s: &[u8], at: usize, m: Known, ends: &[u16]) -> Description
    ensures { Ends s.now ends.now → Knows owner.Device s.now at m → Tells (device_field_faults own.now s.now at) s.now at result }
{
    let names = m.told;
    let homie = homie_told(s, at, m.get(Field::Homie), ends);
    let v = version_of(s, at, m.get(Field::Version), ends);
    let dated = v.told;
    let a = nodes::nodes_in(s, m.get(Field::Nodes), ends);
    let listed = a.told;
    let list = a.list;
    let related = faults::earlier(relatives_told(own, s, &m, ends), listed);
    let others = faults::earlier(others_told(s, &m, ends), related);
    let required = faults::earlier(homie, faults::earlier(dated, others));
    Description {
        told: faults::earlier(names, required),
        version: v.value,
        root: m.get(Field::Root),
        parent: m.get(Field::Parent),
        properties: list,
    }
}

// What the device whose object is at `at` declares.
fn device_at(own: &[u8], s: &[u8], at: usize, ends: &[u16]) -> Description
    ensures { Ends s.now ends.now → Tells (device_faults own.now s.now at) s.now at result }
{
    if !fields::is_object(s, at) {
        return refused(Some(FaultKind::WrongKind.at(at)));
    }
    device_by(
        own,
        s,
        at,
        fields::known_fields(Owner::Device, s, at, ends),
        ends,
    )
}

// A text that is no JSON of at most 8,192 bytes and 16 levels.
fn not_json(s: &[u8]) -> Description
    ensures { result.told ≡ Some (not_json (fault_place s.now)) }
{
    refused(Some(FaultKind::NotJson.at(json_fault::place(s))))
}

// What a text of at most 8,192 bytes, in UTF-8, declares. The table is lent.
fn describe_by(own: &[u8], s: &[u8], ends: &mut [u16]) -> Description
    ensures { length s.now ≤ 8192 → is_utf8 s.now ≡ true → meaning s.now result ≡ describe own.now s.now }
{
    match json_text::mark(s, ends) {
        Err(_) => not_json(s),
        Ok(_) => device_at(own, s, json_text::skip(s, 0), ends),
    }
}

// What the description `s` of the device `own` declares, or what is told of its faults.
pub fn describe(own: &[u8], s: &[u8]) -> Description
    ensures { meaning s.now result ≡ describe own.now s.now }
{
    if s.len() > MOST {
        return not_json(s);
    }
    if !text::is_utf8(s) {
        return not_json(s);
    }
    if s.len() > 2048 {
        let mut ends = [1u16; MOST];
        return describe_by(own, s, &mut ends);
    }
    let mut ends = [1u16; 2048];
    describe_by(own, s, &mut ends)
}

// What is told of the description `s` of the device `own`.
pub fn judge(own: &[u8], s: &[u8]) -> Option<Fault>
    ensures { result ≡ told own.now s.now }
{
    describe(own, s).told
}
