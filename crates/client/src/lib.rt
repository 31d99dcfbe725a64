// A client of the table. Once an opening is taken, its answers follow from the theorem on lists of calls alone.
#![tactic(auto)]

ghost use Rattle.verdict.specs.Verdict.{sent};
ghost use Rattle.table.specs.Outcome.{said};
ghost use Rattle.questions.specs.Meaning.{says_number};
ghost use Rattle.client.specs.Sent.{SentTwice};

use answer::Refused;
use table::Error;

// The answers to a message that was sent twice, and how many devices there are then.
#[derive(Clone, Copy)]
pub struct Sent {
    first: Result<(), Error>,
    again: Result<(), Error>,
    count: Result<u32, Refused>,
}

// Opens a table of four devices and three steps back, sends a message, steps back, and sends it again: it has the same answer. Then counts the devices.
pub fn send_twice(
    mem: &mut [u8],
    domain: &[u8],
    time: u64,
    topic: &[u8],
    retained: bool,
    payload: &[u8],
) -> Sent
    ensures { SentTwice mem.old domain.now (sent time topic.now retained payload.now) mem.new (said result.first) (said result.again) (says_number result.count) }
{
    let opened = table::open(mem, domain, 4, 3);
    let Ok(()) = opened else {
        return Sent {
            first: opened,
            again: opened,
            count: Err(Refused::BadOpening),
        };
    };
    let first = table::message(mem, time, topic, retained, payload);
    let _ = table::step_back(mem);
    let again = table::message(mem, time, topic, retained, payload);
    let count = questions::count(mem);
    Sent {
        first,
        again,
        count,
    }
}
