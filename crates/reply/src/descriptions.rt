// What descriptions declare.
ghost use Rattle.std.specs.Prelude.{◌≡◌, length, take};
ghost use Rattle.fields.specs.Values.{string_bytes};
ghost use Rattle.reply.specs.Reply.{Replied, says};
ghost use Rattle.reply.specs.Descriptions.{presence, place, is_given, kept_number, format_place, entry_values, entry_at, fit_description, show_description, show_declared};

use crate::{refusal_code, tell, twos_complement};
use description::Description;
use payload::Format;
use properties::{Entries, Entry};

#[tactic(auto, unfolding(crate::specs::Descriptions::presence))]
fn presence_of(f: Option<usize>) -> u64
    ensures { result ≡ presence f }
{
    u64::from(f.is_some())
}

#[tactic(auto, unfolding(crate::specs::Descriptions::place))]
fn place_of(f: Option<usize>) -> u64
    ensures { result ≡ place f }
{
    f.unwrap_or(0) as u64
}

pub fn tell_description(out: &mut [u64], d: Description) -> u32
    ensures { Replied (show_description (fit_description d)) out.old result out.new }
{
    if let Some(fault) = d.told {
        return refusal_code(fault.kind.number(), fault.place);
    }
    let root = d.root;
    let parent = d.parent;
    let l = d.properties;
    let version = twos_complement(d.version);
    let vs = [
        version,
        presence_of(root),
        place_of(root),
        presence_of(parent),
        place_of(parent),
        l.n as u64,
    ];
    tell(out, &vs)
}

// How many bytes the string at `k` has.
fn string_length(s: &[u8], k: usize) -> usize
    ensures { result ≡ length (string_bytes s.now k) }
{
    let mut none = [0u8; 1];
    fields::decode_at(s, k, &mut none).unwrap_or(0)
}

// Whether a format with bytes stands in the text.
fn is_given(s: &[u8], f: Option<usize>) -> bool
    ensures { result ≡ is_given s.now f }
{
    match f {
        None => false,
        Some(k) => 0 < string_length(s, k),
    }
}

#[tactic(auto, unfolding(crate::specs::Descriptions::kept_number))]
fn kept_number(f: Option<Format>, given: bool) -> u64
    ensures { result ≡ kept_number f given }
{
    let shown = match f {
        Some(Format::AsGiven) if !given => Format::NotKept,
        _ => f.unwrap_or(Format::NotKept),
    };
    shown as u64
}

#[tactic(auto, unfolding(crate::specs::Descriptions::format_place))]
fn format_place(f: Option<Format>, given: bool, at: Option<usize>) -> u64
    ensures { result ≡ format_place f given at }
{
    match f {
        Some(Format::AsGiven) if given => place_of(at),
        _ => 0,
    }
}

fn tell_entry(out: &mut [u64], s: &[u8], e: Entry) -> u32
    ensures { Replied (says (entry_values s.now e)) out.old result out.new }
{
    let datatype = e.datatype;
    let kept = e.kept;
    let format = e.format;
    let given = is_given(s, format);
    let settable = e.settable;
    let retained = e.retained;
    let vs = [
        e.node as u64,
        e.id as u64,
        payload::datatype_code(datatype) as u64,
        kept_number(kept, given),
        format_place(kept, given, format),
        settable as u64,
        retained as u64,
    ];
    tell(out, &vs)
}

fn tell_item(out: &mut [u64], s: &[u8], l: Entries, i: usize) -> u32
    ensures { Replied (entry_at s.now (take l.n l.items) i) out.old result out.new }
{
    if i >= l.n {
        return 3;
    }
    if i >= properties::MOST {
        return 3;
    }
    let items = l.items;
    let e = items[i];
    tell_entry(out, s, e)
}

// The i-th property that a description of the text `s` declares, from 0.
pub fn tell_declared(out: &mut [u64], s: &[u8], d: Description, i: usize) -> u32
    ensures { Replied (show_declared s.now (fit_description d) i) out.old result out.new }
{
    if let Some(first) = d.told {
        return refusal_code(first.kind.number(), first.place);
    }
    let l = d.properties;
    tell_item(out, s, l, i)
}
