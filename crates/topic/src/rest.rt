// The form of a topic's levels after the first two.
ghost use Rattle.std.specs.Prelude.{ℕ, List, Bool, ◌≡◌, false, ◌∷◌};
ghost use Rattle.topic.specs.Words.{reserved, broadcast_word};
ghost use Rattle.topic.specs.Topics.{one_of, form_of};
ghost use Rattle.text.specs.Places.{bytes_at};
ghost use Rattle.topic.specs.Meaning.{Shows};
ghost use Rattle.topic.specs.Parts.{levels_from, Next, IdAt, WordAt, Ended, Last};

use super::{Topic, level};
use answer::Refused;
use text::{Part, Place};

// The form of the levels from `at` on.
pub fn form(topic: &[u8], at: usize) -> Result<Topic, Refused>
    ensures { Shows topic.now at (form_of (levels_from topic.now at)) result }
{
    let Some(Part { start, end, next }) = text::next_part(topic, at, b'/') else {
        return Err(Refused::NoForm);
    };
    if text::same(&topic[start..end], b"$broadcast") {
        return broadcast(topic, next);
    }
    if !text::is_id(&topic[start..end]) {
        return Err(Refused::NoForm);
    }
    of_device(topic, Place { start, end }, next)
}

// `$broadcast`, then the levels from `at` on; where `$broadcast` itself begins does not matter.
fn broadcast(topic: &[u8], at: usize) -> Result<Topic, Refused>
    ensures { (begin : ℕ) → Shows topic.now begin (form_of (broadcast_word ∷ levels_from topic.now at)) result }
{
    if at > topic.len() {
        return Err(Refused::NoForm);
    }
    if !level::all_pass(topic, at, text::is_id) {
        return Err(Refused::NoForm);
    }
    Ok(Topic::Broadcast {
        ids: Place {
            start: at,
            end: topic.len(),
        },
    })
}

// A device, then the levels from `at` on.
fn of_device(topic: &[u8], device: Place, at: usize) -> Result<Topic, Refused>
    requires { IdAt topic.now device × Next device at }
    ensures { Shows topic.now device.start (form_of (bytes_at topic.now device ∷ levels_from topic.now at)) result }
{
    let Some(Part { start, end, next }) = text::next_part(topic, at, b'/') else {
        return Err(Refused::NoForm);
    };
    let second = Place { start, end };
    if text::is_id(&topic[start..end]) {
        return of_node(topic, device, second, next);
    }
    of_word(topic, device, second, next)
}

// A device and a node, then the levels from `at` on.
fn of_node(topic: &[u8], device: Place, node: Place, at: usize) -> Result<Topic, Refused>
    requires { IdAt topic.now device × IdAt topic.now node × Next device node.start × Next node at }
    ensures { Shows topic.now device.start (form_of (bytes_at topic.now device ∷ bytes_at topic.now node ∷ levels_from topic.now at)) result }
{
    let Some(Part { start, end, next }) = text::next_part(topic, at, b'/') else {
        return Err(Refused::NoForm);
    };
    if !text::is_id(&topic[start..end]) {
        return Err(Refused::NoForm);
    }
    let property = Place { start, end };
    of_property(topic, device, node, property, next)
}

// A device, a node and a property, then the levels from `at` on.
fn of_property(
    topic: &[u8],
    device: Place,
    node: Place,
    property: Place,
    at: usize,
) -> Result<Topic, Refused>
    requires { IdAt topic.now device × IdAt topic.now node × IdAt topic.now property × Next device node.start × Next node property.start }
    ensures { Shows topic.now device.start (form_of (bytes_at topic.now device ∷ bytes_at topic.now node ∷ bytes_at topic.now property ∷ levels_from topic.now at)) result }
{
    let Some(Part { start, end, next }) = text::next_part(topic, at, b'/') else {
        return Ok(Topic::Value {
            device,
            node,
            property,
        });
    };
    if next <= topic.len() {
        return Err(Refused::NoForm);
    }
    if text::same(&topic[start..end], b"set") {
        return Ok(Topic::Set {
            device,
            node,
            property,
        });
    }
    if text::same(&topic[start..end], b"$target") {
        return Ok(Topic::Target {
            device,
            node,
            property,
        });
    }
    Err(Refused::NoForm)
}

// A device and a level that is no ID, then the levels from `at` on.
fn of_word(topic: &[u8], device: Place, word: Place, at: usize) -> Result<Topic, Refused>
    requires { IdAt topic.now device × WordAt topic.now word × Next device word.start × Next word at }
    ensures { Shows topic.now device.start (form_of (bytes_at topic.now device ∷ bytes_at topic.now word ∷ levels_from topic.now at)) result }
{
    let Place { start, end } = word;
    if text::same(&topic[start..end], b"$state") {
        return ended(topic, at, Topic::State { device });
    }
    if text::same(&topic[start..end], b"$description") {
        return ended(topic, at, Topic::Description { device });
    }
    if text::same(&topic[start..end], b"$alert") {
        let name = last_level(topic, at, text::is_id)?;
        return Ok(Topic::Alert { device, name });
    }
    if text::same(&topic[start..end], b"$log") {
        let level = last_level(topic, at, level::is_log_level)?;
        return Ok(Topic::Log { device, level });
    }
    other(topic, device, word, at)
}

// A form that no more levels may follow.
fn ended(topic: &[u8], at: usize, form: Topic) -> Result<Topic, Refused>
    ensures { Ended topic.now at form result }
{
    if at <= topic.len() {
        Err(Refused::NoForm)
    } else {
        Ok(form)
    }
}

// The place of the level at `at`, if it is the last one and passes a test.
fn last_level<F: Fn(&[u8]) -> bool>(topic: &[u8], at: usize, test: F) -> Result<Place, Refused>
    requires { F.IsAlwaysCallable test }
    ensures { (passes : List ℕ → Bool) → ((level : _) (r : _) → F.post test level r → r ≡ passes level.now) → Last passes topic.now at result }
{
    let Some(Part { start, end, next }) = text::next_part(topic, at, b'/') else {
        return Err(Refused::NoForm);
    };
    if next <= topic.len() {
        return Err(Refused::NoForm);
    }
    if !test(&topic[start..end]) {
        return Err(Refused::NoForm);
    }
    Ok(Place { start, end })
}

// A device and a word that no other form has, then the levels from `at` on.
fn other(topic: &[u8], device: Place, word: Place, at: usize) -> Result<Topic, Refused>
    requires { IdAt topic.now device × WordAt topic.now word × (one_of reserved (bytes_at topic.now word) ≡ false) × Next device word.start × Next word at }
    ensures { Shows topic.now device.start (form_of (bytes_at topic.now device ∷ bytes_at topic.now word ∷ levels_from topic.now at)) result }
{
    let Place { start, end } = word;
    if !level::is_dollar_id(&topic[start..end]) {
        return Err(Refused::NoForm);
    }
    if !level::all_pass(topic, at, |level| !level.is_empty()) {
        return Err(Refused::NoForm);
    }
    let name = Place {
        start: start + 1,
        end: end,
    };
    if at > topic.len() {
        return Ok(Topic::Other {
            device,
            word: name,
            levels: Place {
                start: end,
                end: end,
            },
        });
    }
    Ok(Topic::Other {
        device,
        word: name,
        levels: Place {
            start: at,
            end: topic.len(),
        },
    })
}
