// Topics, payloads, descriptions.
ghost use Rattle.std.specs.Prelude.{◌≡◌};
ghost use Rattle.topic.specs.Topics.{read_topic};
ghost use Rattle.payload.specs.Datatypes.{datatype_at};
ghost use Rattle.payload.specs.Formats.{given_format};
ghost use Rattle.payload.specs.Payloads.{is_payload_of};
ghost use Rattle.description.specs.Description.{describe};
ghost use Rattle.reply.specs.Reply.{Told, Replied, refusal_number, bit, is_set};
ghost use Rattle.reply.specs.Judgements.{show_topic, show_flag, show_named, show_format};
ghost use Rattle.reply.specs.Descriptions.{show_description, show_declared};
ghost use Rattle.reply.specs.Strings.{string_in, StringTold};
ghost use Rattle.viewer.specs.Promises.{ReadsTopic, NamesDatatype, KeepsFormat, ReadsDescription};

// Reads a topic of the table of a domain: its form, and where its byte strings stand.
#[unsafe(no_mangle)]
pub extern "C" fn homie5_topic_read(domain: &[u8], topic: &[u8], out: &mut [u64]) -> u32
    ensures { Told (ReadsTopic domain.now topic.now) show_topic out.old result out.new }
{
    let t = topic::read(domain, topic);
    reply::judgements::tell_topic(out, t)
}

// What the form of a topic asks of a message's flag.
#[unsafe(no_mangle)]
pub extern "C" fn homie5_topic_flag(domain: &[u8], topic: &[u8], out: &mut [u64]) -> u32
    ensures { Replied (show_flag (read_topic domain.now topic.now)) out.old result out.new }
{
    let a = topic::read(domain, topic);
    reply::judgements::tell_flag(out, a)
}

// The datatype of a name.
#[unsafe(no_mangle)]
pub extern "C" fn homie5_is_datatype(name: &[u8], out: &mut [u64]) -> u32
    ensures { Told (NamesDatatype name.now) show_named out.old result out.new }
{
    let a = payload::read_datatype(name);
    reply::judgements::tell_named(out, a)
}

// Judges a format, or that none is given, and says what is kept of it.
#[unsafe(no_mangle)]
pub extern "C" fn homie5_is_format(datatype: u8, given: u8, format: &[u8], out: &mut [u64]) -> u32
    ensures { Told (KeepsFormat datatype given format.now) show_format out.old result out.new }
{
    let a = payload::judge_format(payload::datatype_at(datatype), given != 0, format);
    reply::judgements::tell_format(out, a)
}

// Judges a payload by datatype and format, or where no format is given.
#[unsafe(no_mangle)]
pub extern "C" fn homie5_is_payload(datatype: u8, given: u8, format: &[u8], payload: &[u8]) -> u32
    ensures { result ≡ bit (is_payload_of (datatype_at datatype) (given_format (is_set given) format.now) payload.now) }
{
    if payload::judge_payload(payload::datatype_at(datatype), given != 0, format, payload) {
        return 1;
    }
    0
}

// Judges a description of the device `own`.
#[unsafe(no_mangle)]
pub extern "C" fn homie5_description_judge(own: &[u8], text: &[u8]) -> u32
    ensures { result ≡ refusal_number (describe own.now text.now) }
{
    match description::judge(own, text) {
        None => 0,
        Some(fault) => reply::refusal_code(fault.kind.number(), fault.place),
    }
}

// What a description of the device `own` declares.
#[unsafe(no_mangle)]
pub extern "C" fn homie5_description_read(own: &[u8], text: &[u8], out: &mut [u64]) -> u32
    ensures { Told (ReadsDescription own.now text.now) show_description out.old result out.new }
{
    let a = description::describe(own, text);
    reply::descriptions::tell_description(out, a)
}

// The i-th property that a description of the device `own` declares, from 0.
#[unsafe(no_mangle)]
pub extern "C" fn homie5_description_property(
    own: &[u8],
    text: &[u8],
    i: usize,
    out: &mut [u64],
) -> u32
    ensures { Told (ReadsDescription own.now text.now) (λ a. show_declared text.now a i) out.old result out.new }
{
    let d = description::describe(own, text);
    reply::descriptions::tell_declared(out, text, d, i)
}

// The string of a description's text whose opening quote stands at `place`, decoded: its length, and its bytes at the front of a lent buffer if they fit.
#[unsafe(no_mangle)]
pub extern "C" fn homie5_description_string(
    text: &[u8],
    place: usize,
    buf: &mut [u8],
    out: &mut [u64],
) -> u32
    ensures { StringTold (string_in text.now place) out.old buf.old result out.new buf.new }
{
    reply::strings::tell_string(out, buf, text, place)
}
