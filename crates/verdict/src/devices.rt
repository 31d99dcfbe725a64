// Messages to a device as a whole: its state, its description, and those that change nothing.
ghost use Rattle.verdict.specs.Parts.{OnState, OnDescription, OnKnown};

use crate::{Message, Verdict};
use answer::Refused;
use text::Place;

// "state: empty 12; else 14, 13."
pub(crate) fn state(mem: &[u8], message: Message, device: Place) -> Result<Verdict, Refused>
    ensures { OnState mem.now message.entry.topic.now device message.entry.payload.now result }
{
    let id = text::slice(message.topic, device.start, device.end);
    let rank = lookup::find(mem, id);
    let n = lookup::count(mem);
    if message.payload.is_empty() {
        if rank < n {
            return Ok(Verdict::Remove { rank });
        }
        return Err(Refused::NoDevice);
    }
    let Some(state) = rules::read_state(message.payload) else {
        return Err(Refused::BadPayload);
    };
    if rank < n {
        return Ok(Verdict::State { rank, state });
    }
    if memory::byte(mem, memory::CAPACITY) <= n {
        return Err(Refused::Full);
    }
    Ok(Verdict::Create {
        rank: lookup::place_for(mem, id),
        state,
        id: device,
    })
}

// A description: 12; what is told of its faults is left to the writing.
pub(crate) fn description(mem: &[u8], message: Message, device: Place) -> Result<Verdict, Refused>
    ensures { OnDescription mem.now message.entry.topic.now device message.entry.payload.now result }
{
    let id = text::slice(message.topic, device.start, device.end);
    let rank = lookup::find(mem, id);
    if lookup::count(mem) <= rank {
        return Err(Refused::NoDevice);
    }
    if message.payload.is_empty() {
        return Ok(Verdict::Undescribe { rank });
    }
    Ok(Verdict::Describe { rank, id: device })
}

// "Alert, log, other: 12."
pub(crate) fn known(mem: &[u8], topic: &[u8], device: Place) -> Result<Verdict, Refused>
    ensures { OnKnown mem.now topic.now device result }
{
    let id = text::slice(topic, device.start, device.end);
    if lookup::count(mem) <= lookup::find(mem, id) {
        return Err(Refused::NoDevice);
    }
    Ok(Verdict::Time)
}
