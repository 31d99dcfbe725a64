// What a verdict says, written: one change of one room.
ghost use Rattle.table.specs.Outcome.{said};
ghost use Rattle.verdict.specs.declared.Verdict.TheVariants.{Time, Remove, State, Undescribe};
ghost use Rattle.table.specs.Parts.{Carries, Fills, Creates, Describes, Patches, Writes};

use crate::Error;
use answer::Refused;
use device::{DESCRIBED, STATE};
use rules::{DeviceState, LaneKind};

// A change, with the number of devices and the last time after it.
fn write(
    mem: &mut [u8],
    from: u8,
    to: u8,
    n: u8,
    offset: usize,
    bytes: &[u8],
    time: u64,
) -> Result<(), Error>
    ensures { Writes mem.old from to n offset bytes.now time mem.new (said result) }
{
    let head = lookup::head(n, time);
    if !journal::commit(mem, from, to, offset, bytes, &head) {
        // never in sound memory
        return Err(Error::Refused(Refused::NotSound));
    }
    Ok(())
}

// Bytes over those of a device's room.
pub(crate) fn patch(
    mem: &mut [u8],
    rank: u8,
    offset: usize,
    bytes: &[u8],
    time: u64,
) -> Result<(), Error>
    ensures { Patches mem.old rank offset bytes.now time mem.new (said result) }
{
    let n = lookup::count(mem);
    write(mem, rank, rank, n, offset, bytes, time)
}

// The time alone.
pub(crate) fn keep(mem: &mut [u8], time: u64) -> Result<(), Error>
    ensures { Carries mem.old time Time mem.new (said result) }
{
    let n = lookup::count(mem);
    write(mem, 0, 0, n, 0, b"", time)
}

// "empty payload removes it and frees its room for any other"
pub(crate) fn remove(mem: &mut [u8], rank: u8, time: u64) -> Result<(), Error>
    ensures { Carries mem.old time (Remove rank) mem.new (said result) }
{
    let n = lookup::count(mem);
    if n == 0 {
        // never in sound memory: the device is there
        return Err(Error::Refused(Refused::NotSound));
    }
    let last = n - 1;
    write(mem, rank, last, last, 0, b"", time)
}

pub(crate) fn set_state(mem: &mut [u8], rank: u8, s: DeviceState, time: u64) -> Result<(), Error>
    ensures { Carries mem.old time (State rank s) mem.new (said result) }
{
    let bytes = patch::state(s, time);
    patch(mem, rank, STATE, &bytes, time)
}

pub(crate) fn create(
    mem: &mut [u8],
    rank: u8,
    id: &[u8],
    s: DeviceState,
    time: u64,
) -> Result<(), Error>
    ensures { Creates mem.old rank id.now s time mem.new (said result) }
{
    let n = lookup::count(mem);
    if n == 255 {
        // never in sound memory
        return Err(Error::Refused(Refused::NotSound));
    }
    let bytes = patch::new_device(id, s, time);
    write(mem, n, rank, n + 1, 0, &bytes, time)
}

pub(crate) fn undescribe(mem: &mut [u8], rank: u8, time: u64) -> Result<(), Error>
    ensures { Carries mem.old time (Undescribe rank) mem.new (said result) }
{
    let bytes = patch::no_description();
    patch(mem, rank, DESCRIBED, &bytes, time)
}

pub(crate) fn fill(
    mem: &mut [u8],
    rank: u8,
    property: u8,
    kind: LaneKind,
    payload: &[u8],
    time: u64,
) -> Result<(), Error>
    ensures { Fills mem.old rank property kind payload.now time mem.new (said result) }
{
    let bytes = patch::lane(time, payload);
    let offset = patch::lane_offset(property, kind);
    patch(mem, rank, offset, &bytes, time)
}

// "description: replaces what the device has", but for the lanes that its room hands on. Refused: what is told of it.
pub(crate) fn describe(
    mem: &mut [u8],
    rank: u8,
    id: &[u8],
    payload: &[u8],
    time: u64,
) -> Result<(), Error>
    ensures { Describes mem.old rank id.now payload.now time mem.new (said result) }
{
    let d = description::describe(id, payload);
    if let Some(fault) = d.told {
        return Err(Error::Faulty(fault));
    }
    let mut image = imprint::description(payload, d);
    handover::hand_over(&mut image, lookup::room(mem, rank));
    patch(mem, rank, DESCRIBED, &image[DESCRIBED..], time)
}
