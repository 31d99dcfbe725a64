// Questions about the table that memory holds.
ghost use Rattle.std.specs.Prelude.{◌≡◌};
ghost use Rattle.reply.specs.Reply.{Told};
ghost use Rattle.reply.specs.Answers.{show_offer, show_number, show_id, show_states, show_relative, show_version, show_property, show_held, show_time};
ghost use Rattle.viewer.specs.Lanes.{kind_at};
ghost use Rattle.viewer.specs.Promises.{DeviceCount, DeviceAt, StatesOf, RootOf, ParentOf, VersionOf, ValuesHeld, PropertyOf, LaneOf, LastTime, OffersSteps};

use rules::LaneKind;

// How many devices there are.
#[unsafe(no_mangle)]
pub extern "C" fn homie5_device_count(mem: &[u8], out: &mut [u64]) -> u32
    ensures { Told (DeviceCount mem.now) show_number out.old result out.new }
{
    let a = questions::count(mem);
    reply::answers::tell_number(out, a)
}

// The ID of the i-th device, from 0, by ascending ID bytes.
#[unsafe(no_mangle)]
pub extern "C" fn homie5_device_at(mem: &[u8], i: usize, out: &mut [u64]) -> u32
    ensures { Told (DeviceAt mem.now i) show_id out.old result out.new }
{
    let a = questions::nth(mem, i);
    reply::answers::tell_id(out, a)
}

// The own and the effective state of a device, and the time of its own.
#[unsafe(no_mangle)]
pub extern "C" fn homie5_states(mem: &[u8], id: &[u8], out: &mut [u64]) -> u32
    ensures { Told (StatesOf mem.now id.now) show_states out.old result out.new }
{
    let a = questions::states_of(mem, id);
    reply::answers::tell_states(out, a)
}

// The root of a device, as its description names it.
#[unsafe(no_mangle)]
pub extern "C" fn homie5_root(mem: &[u8], id: &[u8], out: &mut [u64]) -> u32
    ensures { Told (RootOf mem.now id.now) show_relative out.old result out.new }
{
    let a = questions::root_of(mem, id);
    reply::answers::tell_relative(out, a)
}

// The parent of a device, as its description names it.
#[unsafe(no_mangle)]
pub extern "C" fn homie5_parent(mem: &[u8], id: &[u8], out: &mut [u64]) -> u32
    ensures { Told (ParentOf mem.now id.now) show_relative out.old result out.new }
{
    let a = questions::parent_of(mem, id);
    reply::answers::tell_relative(out, a)
}

// The version of a device's description.
#[unsafe(no_mangle)]
pub extern "C" fn homie5_version(mem: &[u8], id: &[u8], out: &mut [u64]) -> u32
    ensures { Told (VersionOf mem.now id.now) show_version out.old result out.new }
{
    let a = questions::version_of(mem, id);
    reply::answers::tell_version(out, a)
}

// How many properties of a device hold a value.
#[unsafe(no_mangle)]
pub extern "C" fn homie5_values_held(mem: &[u8], id: &[u8], out: &mut [u64]) -> u32
    ensures { Told (ValuesHeld mem.now id.now) show_number out.old result out.new }
{
    let a = questions::filled_of(mem, id);
    reply::answers::tell_number(out, a)
}

// The i-th property of a device, from 0, by node ID, then property ID.
#[unsafe(no_mangle)]
pub extern "C" fn homie5_property(mem: &[u8], id: &[u8], i: usize, out: &mut [u64]) -> u32
    ensures { Told (PropertyOf mem.now id.now i) show_property out.old result out.new }
{
    let a = questions::property_of(mem, id, i);
    reply::answers::tell_property(out, a)
}

fn kind_at(kind: u8) -> LaneKind
    ensures { result ≡ kind_at kind }
{
    if kind == 0 {
        return LaneKind::Value;
    }
    if kind == 1 {
        return LaneKind::Target;
    }
    LaneKind::Asked
}

// What a lane of a property holds.
#[unsafe(no_mangle)]
pub extern "C" fn homie5_lane(
    mem: &[u8],
    id: &[u8],
    node: &[u8],
    property: &[u8],
    kind: u8,
    out: &mut [u64],
) -> u32
    ensures { Told (LaneOf mem.now id.now node.now property.now kind) show_held out.old result out.new }
{
    let a = questions::lane_of(mem, id, node, property, kind_at(kind));
    reply::answers::tell_held(out, a)
}

// The time of the last message that stands.
#[unsafe(no_mangle)]
pub extern "C" fn homie5_last_time(mem: &[u8], out: &mut [u64]) -> u32
    ensures { Told (LastTime mem.now) show_time out.old result out.new }
{
    let a = questions::last_time(mem);
    reply::answers::tell_time(out, a)
}

// How many steps back are on offer.
#[unsafe(no_mangle)]
pub extern "C" fn homie5_steps(mem: &[u8], out: &mut [u64]) -> u32
    ensures { Told (OffersSteps mem.now) show_offer out.old result out.new }
{
    let a = table::steps(mem);
    reply::answers::tell_offer(out, a)
}
