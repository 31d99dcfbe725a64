// The table in memory that the caller lends: opened, sent messages, stepped back.
#![tactic(auto)]

ghost use Rattle.book.specs.Book.{message, step_back, steps};
ghost use Rattle.lookup.specs.Contract.{Did, Opened};
ghost use Rattle.verdict.specs.Verdict.{sent};
ghost use Rattle.table.specs.Outcome.{said, offer};

mod writing;

use answer::Refused;
use faults::Fault;
use verdict::Verdict;
use writing::{create, describe, fill, keep, remove, set_state, undescribe};

// Why a call is refused: a refusal, or a fault of a description, at its place.
#[derive(Clone, Copy, PartialEq, Eq)]
pub enum Error {
    Refused(Refused),
    Faulty(Fault),
}

impl From<Refused> for Error {
    ghost use Rattle.std.specs.Prelude.{◌≡◌};
    ghost use Rattle.table.specs.declared.Error.{Error};

    ghost from_gives = { λ r e. e ≡ Error.Refused r };

    fn from(refused: Refused) -> Error {
        Error::Refused(refused)
    }
}

impl From<Fault> for Error {
    ghost use Rattle.std.specs.Prelude.{◌≡◌};
    ghost use Rattle.table.specs.declared.Error.{Error};

    ghost from_gives = { λ f e. e ≡ Error.Faulty f };

    fn from(fault: Fault) -> Error {
        Error::Faulty(fault)
    }
}

// Opens memory for a domain, at most d devices and j steps back. Refused: 5.
pub fn open(mem: &mut [u8], domain: &[u8], d: usize, j: usize) -> Result<(), Error>
    ensures { Opened mem.old domain.now d j mem.new (said result) }
{
    let Some(id) = text::Id::read(domain) else {
        return Err(Error::Refused(Refused::BadOpening));
    };
    if !journal::open(mem, &id.bytes[..id.len], d, j) {
        return Err(Error::Refused(Refused::BadOpening));
    }
    Ok(())
}

// Sends a finished message. Refused: 6 where memory is not sound, then 7 to 17 in the paper's order, and 21 to 25 for a description.
// Kept by hand: the four parts apart, as `homie5_message`, `replay` and `calls` have them; the judge takes them as one.
pub fn message(
    mem: &mut [u8],
    time: u64,
    topic: &[u8],
    retained: bool,
    payload: &[u8],
) -> Result<(), Error>
    ensures { Did (message (sent time topic.now retained payload.now)) mem.old mem.new (said result) }
{
    if !lookup::sound(mem) {
        return Err(Error::Refused(Refused::NotSound));
    }
    let v = verdict::judge(
        mem,
        verdict::Message {
            time,
            topic,
            retained,
            payload,
        },
    )?;
    match v {
        Verdict::Time => keep(mem, time),
        Verdict::Remove { rank } => remove(mem, rank, time),
        Verdict::State { rank, state: s } => set_state(mem, rank, s, time),
        Verdict::Create { rank, state: s, id } => {
            let own = text::slice(topic, id.start, id.end);
            create(mem, rank, own, s, time)
        }
        Verdict::Undescribe { rank } => undescribe(mem, rank, time),
        Verdict::Describe { rank, id } => {
            let own = text::slice(topic, id.start, id.end);
            describe(mem, rank, own, payload, time)
        }
        Verdict::Lane {
            rank,
            property: i,
            kind: k,
        } => fill(mem, rank, i, k, payload, time),
    }
}

// Takes the last message back. Refused: 6 where memory is not sound, then 18 where no step is on offer.
pub fn step_back(mem: &mut [u8]) -> Result<(), Error>
    ensures { Did step_back mem.old mem.new (said result) }
{
    if !lookup::sound(mem) {
        return Err(Error::Refused(Refused::NotSound));
    }
    if !journal::undo(mem) {
        return Err(Error::Refused(Refused::NoStep));
    }
    Ok(())
}

// How many steps back are on offer. Refused: 6 where memory is not sound.
pub fn steps(mem: &[u8]) -> Result<u8, Refused>
    ensures { Did steps mem.now mem.now (offer result) }
{
    if !lookup::sound(mem) {
        return Err(Refused::NotSound);
    }
    Ok(memory::byte(mem, memory::STEPS))
}
