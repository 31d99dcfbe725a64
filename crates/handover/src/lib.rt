// What the room of a device hands on to its next description: values and targets with their times, copied into the image of its room.
#![tactic(auto)]

ghost use Rattle.std.specs.Prelude.{◌≡◌};
ghost use Rattle.rules.specs.Handover.{still_valid};
ghost use Rattle.device.specs.Meaning.{declared_in, held_in};
ghost use Rattle.handover.specs.Contract.{HandedOver};
ghost use Rattle.handover.specs.Parts.{keeps_value, LaneHanded, LanesHanded, PropertyHanded};

use device::{Declared, Lane, Property};
use memory::ROOM;
use rules::LaneKind;

// Whether a lane of the old room is filled, with a payload that is valid for the property p of the image.
fn still_valid(image: &[u8], p: Declared, old: &[u8], lane: Option<Lane>) -> bool
    ensures { result ≡ still_valid (declared_in image.now p) (held_in old.now lane) }
{
    let f = p.format;
    match lane {
        None => false,
        Some(lane) => payload::judge(
            p.datatype,
            text::slice(image, f.start, f.end),
            text::slice(old, lane.payload.start, lane.payload.end),
        ),
    }
}

// Whether the value of the old room's property q is handed on: "is retained in both, and the payload is valid".
fn keeps_value(image: &[u8], p: Property, old: &[u8], q: Property) -> bool
    ensures { result ≡ keeps_value image.now p old.now q }
{
    q.declared.retained
        && p.declared.retained
        && still_valid(image, p.declared, old, device::lane_of(q, LaneKind::Value))
}

// A lane of the old room, copied into the i-th property's of the image where it is kept.
fn hand_on(image: &mut [u8], i: u8, kind: LaneKind, kept: bool, old: &[u8], lane: Option<Lane>)
    ensures { LaneHanded image.old i kind kept old.now lane image.new }
{
    if !kept {
        return;
    }
    let Some(lane) = lane else {
        return;
    };
    let s = lane.payload;
    patch::set_lane(image, i, kind, lane.time, text::slice(old, s.start, s.end));
}

// The lanes of the old room's property q, to the i-th of the image, p.
fn lanes(image: &mut [u8], i: u8, p: Property, old: &[u8], q: Property)
    ensures { LanesHanded image.old i p old.now q image.new }
{
    let value = device::lane_of(q, LaneKind::Value);
    let target = device::lane_of(q, LaneKind::Target);
    let keep_value = keeps_value(image, p, old, q);
    let keep_target = still_valid(image, p.declared, old, target);
    hand_on(image, i, LaneKind::Value, keep_value, old, value);
    hand_on(image, i, LaneKind::Target, keep_target, old, target);
}

// What is handed on to the i-th property of the image, by its two IDs.
fn property(image: &mut [u8], i: u8, old: &[u8])
    ensures { PropertyHanded image.old i old.now image.new }
{
    let p = device::property_at(image, i);
    let node = p.declared.node;
    let id = p.declared.id;
    let j = device::find_property(
        old,
        text::slice(image, node.start, node.end),
        text::slice(image, id.start, id.end),
    );
    if device::properties(old) <= j {
        return;
    }
    lanes(image, i, p, old, device::property_at(old, j));
}

// The image of a room with a new description, its lanes empty: it takes over what the old room's description hands on.
// Kept by hand: `image` is an array of a room's size, as `imprint::description` gives it, since there is no heap.
pub fn hand_over(image: &mut [u8; ROOM], old: &[u8])
    ensures { HandedOver image.old old.now image.new }
{
    let n = device::properties(image);
    for i in 0..n {
        property(image, i, old);
    }
}
