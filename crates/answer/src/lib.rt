// The form of every answer in the definitions (specs/Answer.antt), and why a call of the code is refused.
#![tactic(auto)]

ghost use Rattle.std.specs.Prelude.{◌≡◌};
ghost use Rattle.answer.specs.Refused.{number_of};

// Why a call is refused: paper 01, "Refusal numbers".
#[derive(Clone, Copy, PartialEq, Eq)]
pub enum Refused {
    BadHeader = 1,
    BadEntry = 2,
    NoSuchNumber = 3,
    TooLong = 4,
    BadOpening = 5,
    NotSound = 6,
    Earlier = 7,
    OtherDomain = 8,
    NoForm = 9,
    NotUtf8 = 10,
    WrongFlag = 11,
    NoDevice = 12,
    Full = 13,
    BadPayload = 14,
    NoProperty = 16,
    NotSettable = 17,
    NoStep = 18,
}

impl Refused {
    // The paper's number.
    pub fn number(self) -> u8
        ensures { result ≡ number_of self }
    {
        self as u8
    }
}
