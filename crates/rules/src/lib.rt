// The words of the table: states of devices and lanes of properties. The rules themselves are definitions: see specs/Messages.antt and specs/Questions.antt.
#![tactic(auto)]

ghost use Rattle.std.specs.Prelude.{◌≡◌};
ghost use Rattle.rules.specs.States.{state_worded, code_of, state_at};

#[derive(Clone, Copy)]
pub enum DeviceState {
    Init = 0,
    Ready = 1,
    Disconnected = 2,
    Sleeping = 3,
    Lost = 4,
}

#[derive(Clone, Copy)]
pub enum LaneKind {
    Value,
    Target,
    Asked,
}

// The state of a word.
pub fn read_state(s: &[u8]) -> Option<DeviceState>
    ensures { result ≡ state_worded s.now }
{
    if text::same(s, b"init") {
        return Some(DeviceState::Init);
    }
    if text::same(s, b"ready") {
        return Some(DeviceState::Ready);
    }
    if text::same(s, b"disconnected") {
        return Some(DeviceState::Disconnected);
    }
    if text::same(s, b"sleeping") {
        return Some(DeviceState::Sleeping);
    }
    if text::same(s, b"lost") {
        return Some(DeviceState::Lost);
    }
    None
}

// The number of a state in memory.
#[tactic(auto, unfolding(crate::specs::States::code_of))]
pub fn state_code(s: DeviceState) -> u8
    ensures { result ≡ code_of s }
{
    s as u8
}

// The state of a number.
// Kept by hand: `state_at` of specs/States.antt has a state for each number, the last for one past the last; `TryFrom` has an error there, and `From` would hold this `match` under another name.
#[tactic(auto, unfolding(crate::specs::States::state_at))]
pub fn state_at(code: u8) -> DeviceState
    ensures { result ≡ state_at code }
{
    match code {
        0 => DeviceState::Init,
        1 => DeviceState::Ready,
        2 => DeviceState::Disconnected,
        3 => DeviceState::Sleeping,
        _ => DeviceState::Lost,
    }
}
