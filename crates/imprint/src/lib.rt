// A description written into the image of a device's room: its head, and a record for each property, the lanes empty.
#![tactic(auto)]

ghost use Rattle.std.specs.Prelude.{◌≡◌, suc, ◌+◌, ◌≤◌, ◌<◌, min, length};
ghost use Rattle.fields.specs.Values.{string_bytes};
ghost use Rattle.fields.specs.Fields.{text_in};
ghost use Rattle.payload.specs.Formats.{kept_bytes};
ghost use Rattle.properties.specs.Property.{text_of};
ghost use Rattle.memory.specs.Layout.{room_size};
ghost use Rattle.device.specs.Layout.{format_at, format_most, records_at, record_size};
ghost use Rattle.imprint.specs.Contract.{Imprinted};
ghost use Rattle.imprint.specs.Parts.{Texted, Recorded, Listed, Family, Headed, Traits, Blank, flag};

use device::{
    COUNT, DATATYPE, DESCRIBED, FORMAT, NODE, PARENT, PROPERTIES_MOST, PROPERTY, RECORD, RECORDS,
    RETAINED, ROOT, SETTABLE, VERSION,
};
use memory::ROOM;
use payload::Format;
use properties::{Entries, Entry};

// As bytes.
const ID_MOST: u8 = text::Id::MAX as u8;

const FORMAT_MOST: u8 = device::FORMAT_MOST as u8;

// The length of t, at most `most`, and that many of its bytes.
// Kept by hand: `write_text` of `patch` writes the same, and needs room; a public function of this project is total, so neither crate can lend it to the other.
fn put_text(room: &mut [u8], at: usize, t: &[u8], most: u8)
    requires { at + suc most ≤ length room.old }
    ensures { Texted room.old t.now at most room.new }
{
    let n = t.len().min(usize::from(most));
    room[at] = n as u8;
    room[at + 1..at + 1 + n].copy_from_slice(&t[..n]);
}

// The same of the string at `k`, which has a backslash.
fn put_escaped(room: &mut [u8], at: usize, s: &[u8], k: usize, most: u8)
    requires { (at + suc most ≤ length room.old) × (most ≤ 64) }
    ensures { Texted room.old (string_bytes s.now k) at most room.new }
{
    // Kept by hand: there is no heap, so that a string is decoded into an array, of the most bytes that are kept.
    let mut bytes = [0u8; 64];
    match fields::decode_at(s, k, &mut bytes) {
        Err(_) => put_text(room, at, &s[..0], most),
        Ok(n) => put_text(room, at, text::slice(&bytes, 0, n), most),
    }
}

// The same of the string at `k`.
fn put_string(room: &mut [u8], at: usize, s: &[u8], k: usize, most: u8)
    requires { (at + suc most ≤ length room.old) × (most ≤ 64) }
    ensures { Texted room.old (string_bytes s.now k) at most room.new }
{
    let raw = fields::raw_bytes(s, k);
    if escapes::is_plain(raw) {
        put_text(room, at, raw, most);
    } else {
        put_escaped(room, at, s, k, most);
    }
}

// The same of the string that a field holds, or of the empty string.
fn put_field(room: &mut [u8], at: usize, s: &[u8], f: Option<usize>, most: u8)
    requires { (at + suc most ≤ length room.old) × (most ≤ 64) }
    ensures { Texted room.old (text_of (text_in s.now f)) at most room.new }
{
    match f {
        None => put_text(room, at, &s[..0], most),
        Some(k) => put_string(room, at, s, k, most),
    }
}

// What is kept of the format that a field holds.
fn put_format(room: &mut [u8], at: usize, s: &[u8], f: Option<usize>, kept: Option<Format>)
    requires { at + suc format_most ≤ length room.old }
    ensures { Texted room.old (text_of (kept_bytes (text_of (text_in s.now f)) kept)) at format_most room.new }
{
    let Some(kept) = kept else {
        return put_text(room, at, &s[..0], FORMAT_MOST);
    };
    match kept {
        Format::AsGiven => put_field(room, at, s, f, FORMAT_MOST),
        Format::Colon => put_text(room, at, b":", FORMAT_MOST),
        Format::FalseTrue => put_text(room, at, b"false,true", FORMAT_MOST),
        Format::NotKept => put_text(room, at, &s[..0], FORMAT_MOST),
    }
}

// The datatype's number, settable and retained, of the record at a place.
fn put_traits(room: &mut [u8], at: usize, code: u8, settable: bool, retained: bool)
    requires { at + format_at ≤ length room.old }
    ensures { Traits room.old at code (flag settable) (flag retained) room.new }
{
    room[at + DATATYPE] = code;
    room[at + SETTABLE] = u8::from(settable);
    room[at + RETAINED] = u8::from(retained);
}

// The record of a property.
fn put_record(room: &mut [u8], at: usize, s: &[u8], e: Entry)
    requires { (at + record_size ≤ length room.old) × Blank room.old at }
    ensures { Recorded room.old s.now e at room.new }
{
    put_string(room, at + NODE, s, e.node, ID_MOST);
    put_string(room, at + PROPERTY, s, e.id, ID_MOST);
    put_traits(
        room,
        at,
        payload::datatype_code(e.datatype),
        e.settable,
        e.retained,
    );
    put_format(room, at + FORMAT, s, e.format, e.kept);
}

// A record for each of the first n properties.
fn put_records(room: &mut [u8], s: &[u8], l: Entries)
    requires { (length room.old ≡ room_size) × Blank room.old records_at }
    ensures { Listed room.old s.now l room.new }
{
    for i in 0..l.n.min(usize::from(PROPERTIES_MOST)) {
        put_record(room, RECORDS + RECORD * i, s, l.items[i]);
    }
}

fn put_family(room: &mut [u8], s: &[u8], root: Option<usize>, parent: Option<usize>)
    requires { length room.old ≡ room_size }
    ensures { Family room.old s.now root parent room.new }
{
    put_field(room, ROOT, s, root, ID_MOST);
    put_field(room, PARENT, s, parent, ID_MOST);
}

// That there is a description, its root, parent and version, and how many properties it has.
fn put_head(
    room: &mut [u8],
    s: &[u8],
    root: Option<usize>,
    parent: Option<usize>,
    version: u64,
    n: usize,
)
    requires { length room.old ≡ room_size }
    ensures { Headed room.old s.now root parent version n room.new }
{
    room[DESCRIBED] = 1;
    put_family(room, s, root, parent);
    little_endian::set(room, VERSION, 8, version);
    room[COUNT] = n.min(usize::from(PROPERTIES_MOST)) as u8;
}

// The image of a room with the description d, which was read from s: its bytes from the description on are what a device's room gets.
// Kept by hand: an array of a room's size, since there is no heap; it is the room, so that no length stands beside it.
#[inline(never)]
pub fn description(s: &[u8], d: description::Description) -> [u8; ROOM]
    ensures { Imprinted s.now d result }
{
    let mut room = [0u8; ROOM];
    put_head(&mut room, s, d.root, d.parent, d.version, d.properties.n);
    put_records(&mut room, s, d.properties);
    room
}
