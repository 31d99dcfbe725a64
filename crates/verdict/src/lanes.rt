// Messages to a property: value, set, target.
ghost use Rattle.std.specs.Prelude.{ℕ, List};
ghost use Rattle.device.specs.Meaning.{property_in};
ghost use Rattle.verdict.specs.Verdict.{sent};
ghost use Rattle.verdict.specs.Parts.{value_tests, set_tests, target_tests, Passes, Allows, OnLane};

use crate::{Message, Verdict};
use answer::Refused;
use device::Property;
use rules::LaneKind;
use text::Place;

// "Value: 12, 16, 11, 14.": the last two.
fn of_value(keeps: bool, retained: bool, empty: bool, valid: bool) -> Result<(), Refused>
    ensures { Passes (value_tests keeps retained empty valid) empty valid result }
{
    if keeps != retained {
        return Err(Refused::WrongFlag);
    }
    if !valid && !(empty && keeps) {
        return Err(Refused::BadPayload);
    }
    Ok(())
}

// "Set: 12, 16, 17, 14."
fn of_set(settable: bool, empty: bool, valid: bool) -> Result<(), Refused>
    ensures { Passes (set_tests settable valid) empty valid result }
{
    if !settable {
        return Err(Refused::NotSettable);
    }
    if !valid {
        return Err(Refused::BadPayload);
    }
    Ok(())
}

// "Target: 12, 16, 14."
fn of_target(empty: bool, valid: bool) -> Result<(), Refused>
    ensures { Passes (target_tests empty valid) empty valid result }
{
    if !empty && !valid {
        return Err(Refused::BadPayload);
    }
    Ok(())
}

// Whether a message to this property of the room is refused.
fn refusal(
    kind: LaneKind,
    room: &[u8],
    p: Property,
    retained: bool,
    payload: &[u8],
) -> Result<(), Refused>
    ensures { (time : ℕ) (topic : List ℕ) → Allows kind (property_in room.now p) (sent time topic retained payload.now) result }
{
    let p = p.declared;
    let format = p.format;
    let valid = payload::judge(
        p.datatype,
        text::slice(room, format.start, format.end),
        payload,
    );
    let empty = payload.is_empty();
    // Kept by hand: each kind has a rule and refusals of its own, and a `match` on the enum says which.
    match kind {
        LaneKind::Value => of_value(p.retained, retained, empty, valid),
        LaneKind::Target => of_target(empty, valid),
        LaneKind::Asked => of_set(p.settable, empty, valid),
    }
}

// A message to a property's lane.
pub(crate) fn lane(
    mem: &[u8],
    kind: LaneKind,
    message: Message,
    device: Place,
    node: Place,
    property: Place,
) -> Result<Verdict, Refused>
    ensures { OnLane mem.now kind message.entry.topic.now device node property message.entry.retained message.entry.payload.now result }
{
    let rank = lookup::find(mem, text::slice(message.topic, device.start, device.end));
    if lookup::count(mem) <= rank {
        return Err(Refused::NoDevice);
    }
    let room = lookup::room(mem, rank);
    let node_id = text::slice(message.topic, node.start, node.end);
    let id = text::slice(message.topic, property.start, property.end);
    let i = device::find_property(room, node_id, id);
    if device::properties(room) <= i {
        return Err(Refused::NoProperty);
    }
    refusal(
        kind,
        room,
        device::property_at(room, i),
        message.retained,
        message.payload,
    )?;
    Ok(Verdict::Lane {
        rank,
        property: i,
        kind,
    })
}
