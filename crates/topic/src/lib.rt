// Topics: which form a topic has, and where its IDs stand.
#![tactic(auto)]

ghost use Rattle.topic.specs.Topics.{read_topic};
ghost use Rattle.topic.specs.Meaning.{form_at, Shows, rest_of};
ghost use Rattle.topic.specs.Flags.{flag_of, Asks, admits};
ghost use Rattle.std.specs.Prelude.{ℕ, List, ◌≡◌};

use answer::Refused;
use text::Place;

mod level;
mod rest;

// A topic's form with the places of its IDs.
#[derive(Clone, Copy)]
pub enum Topic {
    State {
        device: Place,
    },
    Description {
        device: Place,
    },
    Value {
        device: Place,
        node: Place,
        property: Place,
    },
    Set {
        device: Place,
        node: Place,
        property: Place,
    },
    Target {
        device: Place,
        node: Place,
        property: Place,
    },
    Alert {
        device: Place,
        name: Place,
    },
    Log {
        device: Place,
        level: Place,
    },
    // `ids` reaches from the first ID to the last one's end.
    Broadcast {
        ids: Place,
    },
    // `word` is the ID after `$`, `levels` all that follows it; with no level it is empty.
    Other {
        device: Place,
        word: Place,
        levels: Place,
    },
}

// What a form asks of a message's flag.
#[derive(Clone, Copy)]
pub enum Flag {
    Retained,
    NotRetained,
    AsProperty,
    Either,
}

// Reads a topic of the table of this domain. Refused: 8 where the first two levels are not the domain and `5`, then 9 where the rest has no form.
pub fn read(domain: &[u8], topic: &[u8]) -> Result<Topic, Refused>
    ensures { Shows topic.now (rest_of domain.now) (read_topic domain.now topic.now) result }
{
    let Some(first) = text::next_part(topic, 0, b'/') else {
        return Err(Refused::OtherDomain);
    };
    if !text::same(&topic[first.start..first.end], domain) {
        return Err(Refused::OtherDomain);
    }
    let Some(second) = text::next_part(topic, first.next, b'/') else {
        return Err(Refused::OtherDomain);
    };
    if !text::same(&topic[second.start..second.end], b"5") {
        return Err(Refused::OtherDomain);
    }
    rest::form(topic, second.next)
}

// What the form of a topic asks of a message's flag; a refused topic asks nothing.
pub fn flag_of(t: Result<Topic, Refused>) -> Flag
    ensures { Asks t result }
{
    match t {
        Ok(form) => form.flag(),
        Err(_) => Flag::Either,
    }
}

impl Topic {
    // What the form asks of a message's flag.
    pub fn flag(self) -> Flag
        ensures { (topic : List ℕ) → result ≡ flag_of (form_at topic self) }
    {
        match self {
            Topic::State { .. } => Flag::Retained,
            Topic::Description { .. } => Flag::Retained,
            Topic::Value { .. } => Flag::AsProperty,
            Topic::Set { .. } => Flag::NotRetained,
            Topic::Target { .. } => Flag::Retained,
            Topic::Alert { .. } => Flag::Retained,
            Topic::Log { .. } => Flag::Either,
            Topic::Broadcast { .. } => Flag::Either,
            Topic::Other { .. } => Flag::Either,
        }
    }
}

impl Flag {
    // Whether a message with this flag is as asked; `AsProperty` is left to the property.
    pub fn admits(self, retained: bool) -> bool
        ensures { result ≡ admits self retained }
    {
        match self {
            Flag::Retained => retained,
            Flag::NotRetained => !retained,
            Flag::AsProperty => true,
            Flag::Either => true,
        }
    }
}
