// The nodes of a description: judged, and their properties listed. Answers are right if the table of ends is.
// Kept by hand: the walks of `add_properties` and `add_nodes` need the place `i` of each name beside its member, as those of crate `fields` do.
#![tactic(auto)]

ghost use Rattle.std.specs.Prelude.{◌≡◌, true, false, [], ◌∷◌, ◌++◌, ℕ};
ghost use Rattle.faults.specs.Faults.{least, repeated};
ghost use Rattle.json_text.specs.Ends.{Ends};
ghost use Rattle.fields.specs.Values.{members};
ghost use Rattle.fields.specs.Fields.{field, members_in, among};
ghost use Rattle.fields.specs.Known.{IsMember};
ghost use Rattle.properties.specs.Property.{property_faults, property_at, insert_all};
ghost use Rattle.properties.specs.Judged.{Judges};
ghost use Rattle.nodes.specs.Names.{properties};
ghost use Rattle.nodes.specs.Nodes.{property_member, each, node_faults, node_member, named_in, nodes_faults, properties_among, properties_of};
ghost use Rattle.nodes.specs.Parts.{item_of, lists, past_most_at, past_most, Adds, seen_faults};
ghost use Rattle.nodes.specs.Listed.{Lists};

use faults::{Fault, FaultKind};
use fields::{Field, Kind, Known, Owner};
use properties::{Entries, Judged};

// Nodes judged: what is told of their faults, and if there is none, the list with their properties put in.
#[derive(Clone, Copy)]
pub struct Listed {
    pub told: Option<Fault>,
    pub list: Entries,
}

// What is told of a property whose ID is at `i`, with n before it.
fn past_most(s: &[u8], n: usize, i: usize, ends: &[u16]) -> Option<Fault>
    ensures { Ends s.now ends.now → result ≡ least (past_most_at s.now n i) }
{
    if n < properties::MOST {
        return None;
    }
    fields::half_told(s, i, ends).or(Some(FaultKind::RuleBroken.at(i)))
}

// The value at `k` of a property whose own ID is at `id`, of the node whose ID is at `node`: judged if it is the first of its name.
fn property_value(s: &[u8], first: bool, node: usize, id: usize, k: usize, ends: &[u16]) -> Judged
    ensures { Ends s.now ends.now → Judges (elim first [ true ↦ property_faults s.now k | false ↦ repeated id ∷ [] ]) (property_at s.now node id k) s.now result }
{
    if first {
        return properties::property_at(s, node, id, k, ends);
    }
    Judged {
        told: Some(FaultKind::NameRepeated.at(id)),
        entry: properties::blank(node, id),
    }
}

// A member of the object at `at`, a property of the node whose ID is at `node`, with n before it: its own ID is at `i`, its value at `k`.
fn property_member(
    s: &[u8],
    node: usize,
    at: usize,
    i: usize,
    k: usize,
    n: usize,
    ends: &[u16],
) -> Judged
    ensures { Ends s.now ends.now → IsMember s.now i k → (e : ℕ) → Judges (property_member s.now at (item_of i k e) ++ past_most s.now n (item_of i k e ∷ [])) (property_at s.now node i k) s.now result }
{
    let p = property_value(s, fields::comes_first(s, at, i, k, ends), node, i, k, ends);
    let value = p.told;
    let entry = p.entry;
    let named = faults::earlier(fields::id_name_told(s, i, ends), past_most(s, n, i, ends));
    Judged {
        told: faults::earlier(named, value),
        entry,
    }
}

// The list with the properties in the object at `at`, of the node whose ID is at `node`.
fn add_properties(
    s: &[u8],
    node: usize,
    at: usize,
    before: Option<Fault>,
    listed: Entries,
    ends: &[u16],
) -> Listed
    ensures { Ends s.now ends.now → Adds (among (property_member s.now at) (members s.now at)) (members s.now at) (properties_among s.now node (members s.now at)) s.now (lists before listed) result }
{
    let mut told = before;
    let mut list = listed;
    if json_text::peek(s, at) != 123 {
        return Listed { told, list };
    }
    let mut i = json_text::skip(s, at + 1);
    while let Some(member) = json_text::member_by(s, i, ends) {
        let p = property_member(s, node, at, i, member.value, list.n, ends);
        told = faults::earlier(told, p.told);
        list = properties::insert(s, p.entry, list, ends);
        i = member.next;
    }
    Listed { told, list }
}

// The list with the properties in the object that a field holds.
fn add_field(
    s: &[u8],
    node: usize,
    f: Option<usize>,
    told: Option<Fault>,
    list: Entries,
    ends: &[u16],
) -> Listed
    ensures { Ends s.now ends.now → Adds (each (property_member s.now) s.now f) (members_in s.now f) (properties_among s.now node (members_in s.now f)) s.now (lists told list) result }
{
    match f {
        None => Listed { told, list },
        Some(p) => add_properties(s, node, p, told, list, ends),
    }
}

// What is told of the known fields of a node.
fn fields_told(s: &[u8], m: &Known, ends: &[u16]) -> Option<Fault>
    ensures { Ends s.now ends.now → result ≡ least (seen_faults s.now m.now.seen) }
{
    let name = fields::field_told(s, m.get(Field::Name), Kind::Text, ends);
    let kind = fields::field_told(s, m.get(Field::Type), Kind::Text, ends);
    let held = fields::field_told(s, m.get(Field::Properties), Kind::Object, ends);
    faults::earlier(name, faults::earlier(kind, held))
}

// The list with the properties of the node whose ID is at `i` and whose value is at `k`.
fn add_node(
    s: &[u8],
    i: usize,
    k: usize,
    told: Option<Fault>,
    list: Entries,
    ends: &[u16],
) -> Listed
    ensures { Ends s.now ends.now → Adds (node_faults s.now k) (members_in s.now (field s.now k properties)) (properties_among s.now i (members_in s.now (field s.now k properties))) s.now (lists told list) result }
{
    if !fields::is_object(s, k) {
        return Listed {
            told: faults::earlier(told, Some(FaultKind::WrongKind.at(k))),
            list,
        };
    }
    let m = fields::known_fields(Owner::Node, s, k, ends);
    let names = m.told;
    let own = faults::earlier(names, fields_told(s, &m, ends));
    let f = m.get(Field::Properties);
    add_field(s, i, f, faults::earlier(told, own), list, ends)
}

// The same of a member of the object at `nodes`, if it is the first of its name.
fn add_member(
    s: &[u8],
    nodes: usize,
    i: usize,
    k: usize,
    told: Option<Fault>,
    list: Entries,
    ends: &[u16],
) -> Listed
    ensures { Ends s.now ends.now → IsMember s.now i k → (e : ℕ) → Adds (node_member s.now nodes (item_of i k e)) (named_in s.now nodes (item_of i k e ∷ [])) (properties_of s.now (item_of i k e ∷ [])) s.now (lists told list) result }
{
    let named = faults::earlier(told, fields::id_name_told(s, i, ends));
    if fields::comes_first(s, nodes, i, k, ends) {
        return add_node(s, i, k, named, list, ends);
    }
    Listed {
        told: faults::earlier(named, Some(FaultKind::NameRepeated.at(i))),
        list,
    }
}

// The list with the properties of the nodes in the object at `nodes`.
fn add_nodes(s: &[u8], nodes: usize, before: Listed, ends: &[u16]) -> Listed
    ensures { Ends s.now ends.now → Adds (among (node_member s.now nodes) (members s.now nodes)) (named_in s.now nodes (members s.now nodes)) (properties_of s.now (members s.now nodes)) s.now before result }
{
    let mut l = before;
    if json_text::peek(s, nodes) != 123 {
        return l;
    }
    let mut i = json_text::skip(s, nodes + 1);
    while let Some(member) = json_text::member_by(s, i, ends) {
        l = add_member(s, nodes, i, member.value, l.told, l.list, ends);
        i = member.next;
    }
    l
}

// The nodes in the object that a field holds, with their properties in order.
pub fn nodes_in(s: &[u8], f: Option<usize>, ends: &[u16]) -> Listed
    ensures { Ends s.now ends.now → Lists (nodes_faults s.now f) (insert_all (properties_of s.now (members_in s.now f)) []) s.now result }
{
    let l = Listed {
        told: None,
        list: properties::empty(),
    };
    match f {
        None => l,
        Some(k) => add_nodes(s, k, l, ends),
    }
}
