// Faults of a text by their places, and the one that is told of them.
#![tactic(auto)]

ghost use Rattle.std.specs.Prelude.{◌≡◌};
ghost use Rattle.faults.specs.Faults.{fault_number, fault, earlier};

// The kinds of the faults of a description, by the paper's numbers.
#[derive(Clone, Copy, PartialEq, Eq, PartialOrd, Ord)]
pub enum FaultKind {
    NotJson = 21,
    WrongKind = 22,
    FieldMissing = 23,
    NameRepeated = 24,
    RuleBroken = 25,
}

impl FaultKind {
    // The paper's number.
    pub fn number(self) -> u8
        ensures { result ≡ fault_number self }
    {
        self as u8
    }

    // A fault of that kind.
    pub fn at(self, place: usize) -> Fault
        ensures { result ≡ fault place self }
    {
        Fault { place, kind: self }
    }
}

// A fault, at its byte place. The lesser of two is the first.
#[derive(Clone, Copy, PartialEq, Eq, PartialOrd, Ord)]
pub struct Fault {
    pub place: usize,
    pub kind: FaultKind,
}

// The first of two faults, where there are any.
pub fn earlier(a: Option<Fault>, b: Option<Fault>) -> Option<Fault>
    ensures { result ≡ earlier a b }
{
    match (a, b) {
        (Some(f), Some(g)) => Some(f.min(g)),
        (Some(f), None) => Some(f),
        (None, _) => b,
    }
}
