// The room of one device: what its bytes mean. A room may have any length and hold any bytes; past its end every byte reads as 0.
#![tactic(auto)]

// Kept by hand: `text_at`, `lane_at`, `lanes_at`, `record_at` and `property_at` read at a place of a room; a conversion has no place beside the bytes.

ghost use Rattle.std.specs.Prelude.{◌≡◌, cond, ◌+◌, ◌^◌, ◌≤◌, ◌<◌, min, length};
ghost use Rattle.text.specs.Bytes.{eq_bytes};
ghost use Rattle.rules.specs.Table.{root_of, parent_of, version_of, properties_of};
ghost use Rattle.rules.specs.Find.{is_named, first_at};
ghost use Rattle.rules.specs.Questions.{filled_in};
ghost use Rattle.text.specs.Ids.{id_most};
ghost use Rattle.device.specs.Layout.{properties_most, record_size, record_at, format_most, lane_size};
ghost use Rattle.device.specs.Decode.{is_set, text_at, held_at, record_of, device_of};
ghost use Rattle.device.specs.Meaning.{TextIn, OptionalIn, version_is, LaneIn, PropertyIn, lane_number, chosen};
ghost use Rattle.device.specs.Parts.{described_text, LanesAt, ValueWord};

use payload::Datatype;
use rules::{DeviceState, LaneKind};
use text::Place;

// The layout: see specs/Layout.antt.
pub const ID: usize = 0;

pub const STATE: usize = 33;

pub const TIME: usize = 34;

pub const DESCRIBED: usize = 403;

pub const ROOT: usize = 404;

pub const PARENT: usize = 437;

pub const VERSION: usize = 470;

pub const COUNT: usize = 478;

pub const PROPERTIES_MOST: u8 = properties::MOST as u8;

pub const RECORDS: usize = 512;

pub const RECORD: usize = 320;

pub const NODE: usize = 0;

pub const PROPERTY: usize = 33;

pub const DATATYPE: usize = 66;

pub const SETTABLE: usize = 67;

pub const RETAINED: usize = 68;

pub const FORMAT: usize = 69;

pub const FORMAT_MOST: usize = payload::FORMAT_MOST;

pub const LANES: usize = 134;

pub const LANE: usize = 57;

pub const PAYLOAD: usize = 8;

pub const PAYLOAD_MOST: usize = payload::PAYLOAD_MOST;

// What a filled lane holds.
#[derive(Clone, Copy)]
pub struct Lane {
    pub time: u64,
    pub payload: Place,
}

// What is declared of a property: its byte strings are places.
#[derive(Clone, Copy)]
pub struct Declared {
    pub node: Place,
    pub id: Place,
    pub datatype: Datatype,
    pub settable: bool,
    pub retained: bool,
    pub format: Place,
}

// A property of a room, and its lanes: value, target, asked.
#[derive(Clone, Copy)]
pub struct Property {
    pub declared: Declared,
    pub lanes: [Option<Lane>; 3],
}

fn is_set(room: &[u8], at: usize) -> bool
    ensures { result ≡ is_set room.now at }
{
    memory::byte(room, at) != 0
}

// The byte string whose length byte is at a place, cut by the room's end.
fn clipped_text(room: &[u8], at: usize, most: usize) -> Place
    requires { (at < 2 ^ 20) × (most ≤ format_most) }
    ensures { TextIn room.now (text_at room.now at most) result }
{
    let n = usize::from(memory::byte(room, at)).min(most);
    Place {
        start: (at + 1).min(room.len()),
        end: (at + 1 + n).min(room.len()),
    }
}

// The byte string whose length byte is at a place.
fn text_at(room: &[u8], at: usize, most: usize) -> Place
    requires { (at < 2 ^ 20) × (most ≤ format_most) }
    ensures { TextIn room.now (text_at room.now at most) result }
{
    if room.len() <= at + most {
        return clipped_text(room, at, most);
    }
    let n = usize::from(room[at]).min(most);
    Place {
        start: at + 1,
        end: at + 1 + n,
    }
}

// The device's ID.
pub fn id(room: &[u8]) -> Place
    ensures { TextIn room.now (device_of room.now).id result }
{
    text_at(room, ID, text::Id::MAX)
}

// The device's own state.
pub fn state(room: &[u8]) -> DeviceState
    ensures { result ≡ (device_of room.now).state }
{
    rules::state_at(memory::byte(room, STATE))
}

// The time of that state.
pub fn time(room: &[u8]) -> u64
    ensures { result ≡ (device_of room.now).time }
{
    little_endian::get(room, TIME, 8)
}

// A byte string of the description that may be missing.
fn described_text(room: &[u8], at: usize) -> Option<Place>
    requires { at < 2 ^ 20 }
    ensures { OptionalIn room.now (described_text room.now at) result }
{
    if !is_set(room, DESCRIBED) || !is_set(room, at) {
        return None;
    }
    Some(text_at(room, at, text::Id::MAX))
}

// The root that the description names.
pub fn root(room: &[u8]) -> Option<Place>
    ensures { OptionalIn room.now (root_of (device_of room.now).description) result }
{
    described_text(room, ROOT)
}

// The parent that the description names.
pub fn parent(room: &[u8]) -> Option<Place>
    ensures { OptionalIn room.now (parent_of (device_of room.now).description) result }
{
    described_text(room, PARENT)
}

// The number of the description's version, plus 2^63.
pub fn version_of(room: &[u8]) -> Option<u64>
    ensures { version_is result ≡ version_of (device_of room.now).description }
{
    if is_set(room, DESCRIBED) {
        Some(little_endian::get(room, VERSION, 8))
    } else {
        None
    }
}

// How many properties the device has.
pub fn properties(room: &[u8]) -> u8
    ensures { result ≡ length (properties_of (device_of room.now).description) }
{
    if !is_set(room, DESCRIBED) {
        return 0;
    }
    memory::byte(room, COUNT).min(PROPERTIES_MOST)
}

// The number of a lane.
#[tactic(auto, unfolding(crate::specs::Meaning::lane_number))]
pub fn lane_number(kind: LaneKind) -> usize
    ensures { (result ≡ lane_number kind) × (result < 3) }
{
    kind as usize
}

// One lane of a property.
pub fn lane_of(p: Property, kind: LaneKind) -> Option<Lane>
    ensures { result ≡ chosen kind p }
{
    p.lanes[lane_number(kind)]
}

// The lane that starts at a place.
fn lane_at(room: &[u8], a: usize) -> Option<Lane>
    requires { a + lane_size < 2 ^ 20 }
    ensures { LaneIn room.now (held_at room.now a) result }
{
    if !is_set(room, a + PAYLOAD) {
        return None;
    }
    let time = little_endian::get(room, a, 8);
    let payload = text_at(room, a + PAYLOAD, PAYLOAD_MOST);
    Some(Lane { time, payload })
}

// The lanes of the record at a place.
fn lanes_at(room: &[u8], a: usize) -> [Option<Lane>; 3]
    requires { a + record_size < 2 ^ 20 }
    ensures { LanesAt room.now a result }
{
    let value = lane_at(room, a + LANES);
    let target = lane_at(room, a + (LANES + LANE));
    let asked = lane_at(room, a + (LANES + (LANE + LANE)));
    [value, target, asked]
}

// Where the record of a property starts.
fn record_at(i: u8) -> usize
    ensures { (result ≡ record_at i) × (result < 2 ^ 17) }
{
    RECORDS + RECORD * i as usize
}

// The property of number i; where it is not below the count, what its bytes would mean.
pub fn property_at(room: &[u8], i: u8) -> Property
    ensures { PropertyIn room.now (record_of room.now (record_at i)) result }
{
    let a = record_at(i);
    let node = text_at(room, a + NODE, text::Id::MAX);
    let id = text_at(room, a + PROPERTY, text::Id::MAX);
    let datatype = payload::datatype_at(memory::byte(room, a + DATATYPE));
    let settable = is_set(room, a + SETTABLE);
    let retained = is_set(room, a + RETAINED);
    let format = text_at(room, a + FORMAT, FORMAT_MOST);
    let lanes = lanes_at(room, a);
    Property {
        declared: Declared {
            node,
            id,
            datatype,
            settable,
            retained,
            format,
        },
        lanes,
    }
}

// Whether the ID at a place is this one.
fn id_is(room: &[u8], at: usize, id: &[u8]) -> bool
    requires { at < 2 ^ 20 }
    ensures { result ≡ eq_bytes (text_at room.now at id_most) id.now }
{
    let p = text_at(room, at, text::Id::MAX);
    text::same(&room[p.start..p.end], id)
}

// Whether the property of number i has these two IDs; of many with one node the second tells sooner.
fn is_named(room: &[u8], i: u8, node: &[u8], id: &[u8]) -> bool
    ensures { result ≡ is_named node.now id.now (record_of room.now (record_at i)) }
{
    let a = record_at(i);
    id_is(room, a + PROPERTY, id) && id_is(room, a + NODE, node)
}

// The number of the first property with these two IDs; where there is none, the number of properties.
pub fn find_property(room: &[u8], node: &[u8], id: &[u8]) -> u8
    ensures { result ≡ first_at (is_named node.now id.now) (properties_of (device_of room.now).description) }
{
    let n = properties(room);
    for i in 0..n {
        if is_named(room, i, node, id) {
            return i;
        }
    }
    n
}

// A word below 2^i, with its bit i set or not.
fn with_bit(w: u32, i: u8, set: bool) -> u32
    requires { (i < properties_most) × (w < 2 ^ i) }
    ensures { result ≡ cond set (2 ^ i) 0 + w }
{
    if set { w | (1 << i) } else { w }
}

// A word with one bit per property, set where its value lane is filled.
fn value_word(room: &[u8]) -> u32
    ensures { ValueWord (properties_of (device_of room.now).description) result }
{
    let n = properties(room);
    let mut w: u32 = 0;
    for i in 0..n {
        w = with_bit(w, i, is_set(room, record_at(i) + (LANES + PAYLOAD)));
    }
    w
}

// How many properties hold a value.
pub fn filled(room: &[u8]) -> u32
    ensures { result ≡ filled_in (properties_of (device_of room.now).description) }
{
    u32::count_ones(value_word(room))
}
