// The table: opening, messages, steps back.
ghost use Rattle.reply.specs.Reply.{Numbered};
ghost use Rattle.reply.specs.Answers.{outcome_number};
ghost use Rattle.viewer.specs.Promises.{OpensTable, Sends, StepsBack};

// Opens memory for a domain, with room for devices and for steps back.
#[unsafe(no_mangle)]
pub extern "C" fn homie5_open(mem: &mut [u8], domain: &[u8], devices: usize, depth: usize) -> u32
    ensures { Numbered (OpensTable mem.old domain.now devices depth mem.new) outcome_number result }
{
    let a = table::open(mem, domain, devices, depth);
    reply::answers::outcome_number(a)
}

// Sends a message.
#[unsafe(no_mangle)]
pub extern "C" fn homie5_message(
    mem: &mut [u8],
    time: u64,
    topic: &[u8],
    retained: u8,
    payload: &[u8],
) -> u32
    ensures { Numbered (Sends mem.old time topic.now retained payload.now mem.new) outcome_number result }
{
    let a = table::message(mem, time, topic, retained != 0, payload);
    reply::answers::outcome_number(a)
}

// Takes the last message back.
#[unsafe(no_mangle)]
pub extern "C" fn homie5_step_back(mem: &mut [u8]) -> u32
    ensures { Numbered (StepsBack mem.old mem.new) outcome_number result }
{
    let a = table::step_back(mem);
    reply::answers::outcome_number(a)
}
