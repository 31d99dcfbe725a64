// What a message makes of the table, or why it is refused: judged, and nothing written.
#![tactic(auto)]

ghost use Rattle.std.specs.Prelude.{ℕ, List, ◌≡◌};
ghost use Rattle.answer.specs.Answer.{gives};
ghost use Rattle.topic.specs.Meaning.{form_at};
ghost use Rattle.lookup.specs.Meaning.{means};
ghost use Rattle.rules.specs.Messages.{is_due};
ghost use Rattle.verdict.specs.Verdict.{sent, Verdicts};
ghost use Rattle.verdict.specs.Parts.{unless, formed, OnForm};

mod devices;
mod lanes;

use answer::Refused;
use devices::{description, known, state};
use lanes::lane;
use rules::{DeviceState, LaneKind};
use text::Place;
use topic::Topic;

// A finished message.
// Kept by hand: beside `NewEvent` of `trace`, since a table is judged without trace files.
#[derive(Clone, Copy)]
pub struct Message<'a> {
    pub time: u64,
    pub topic: &'a [u8],
    pub retained: bool,
    pub payload: &'a [u8],
}

// What is to be done of a message that is taken: devices and properties by rank, `id` in the message's topic.
#[derive(Clone, Copy)]
pub enum Verdict {
    Time,
    Remove {
        rank: u8,
    },
    State {
        rank: u8,
        state: DeviceState,
    },
    Create {
        rank: u8,
        state: DeviceState,
        id: Place,
    },
    Undescribe {
        rank: u8,
    },
    Describe {
        rank: u8,
        id: Place,
    },
    Lane {
        rank: u8,
        property: u8,
        kind: LaneKind,
    },
}

// 10 and 11: whether a message with a topic of this form is refused.
fn refusal(t: Topic, message: Message) -> Result<(), Refused>
    ensures { (topic : List ℕ) → formed message.entry.retained message.entry.payload.now (gives (form_at topic t)) ≡ unless result (gives (form_at topic t)) }
{
    if !text::is_text(message.payload) {
        return Err(Refused::NotUtf8);
    }
    if !t.flag().admits(message.retained) {
        return Err(Refused::WrongFlag);
    }
    Ok(())
}

// A message of a form that is not refused so far.
fn by_form(mem: &[u8], t: Topic, message: Message) -> Result<Verdict, Refused>
    ensures { OnForm mem.now message.entry.topic.now t message.entry.retained message.entry.payload.now result }
{
    match t {
        Topic::State { device } => state(mem, message, device),
        Topic::Description { device } => description(mem, message, device),
        Topic::Value {
            device: d,
            node: n,
            property: p,
        } => lane(mem, LaneKind::Value, message, d, n, p),
        Topic::Set {
            device: d,
            node: n,
            property: p,
        } => lane(mem, LaneKind::Asked, message, d, n, p),
        Topic::Target {
            device: d,
            node: n,
            property: p,
        } => lane(mem, LaneKind::Target, message, d, n, p),
        Topic::Alert { device, .. } => known(mem, message.topic, device),
        Topic::Log { device, .. } => known(mem, message.topic, device),
        Topic::Broadcast { .. } => Ok(Verdict::Time),
        Topic::Other { device, .. } => known(mem, message.topic, device),
    }
}

// 7: whether the time is not before the last one.
fn is_due(mem: &[u8], time: u64) -> bool
    ensures { result ≡ is_due (means mem.now).now.last time }
{
    match lookup::last(mem) {
        None => true,
        Some(last) => last <= time,
    }
}

// Judges a message, in the order 7, 8, 9, 10, 11 (forms with a fixed flag), then by form.
pub fn judge(mem: &[u8], message: Message) -> Result<Verdict, Refused>
    ensures { Verdicts mem.now (sent message.entry.time message.entry.topic.now message.entry.retained message.entry.payload.now) result }
{
    if !is_due(mem, message.time) {
        return Err(Refused::Earlier);
    }
    let t = topic::read(lookup::domain(mem), message.topic)?;
    refusal(t, message)?;
    by_form(mem, t, message)
}
