// A line's question: its words read, and judged by the libraries.
ghost use Rattle.std.specs.Prelude.{◌≤◌, length};
ghost use Rattle.lines.specs.Words.{word_at};
ghost use Rattle.lines.specs.Out.{Adds};
ghost use Rattle.judge.specs.Questions.{of_bytes, of_topic, of_description, of_event, of_append, topic_line, description_line, format_line, event_line, payload_line, two_words, three_words, four_words, seven_words, append_words, event_words, answer_to};

use super::say;

// `id`, `utf8`, `trace`
fn of_bytes(verb: &[u8], b: &[u8], out: &mut [u8]) -> usize
    ensures { Adds out.old 0 (of_bytes verb.now b.now) result out.new }
{
    if text::same(verb, b"id") {
        return say::yes_or_no(out, text::is_id(b));
    }
    if text::same(verb, b"utf8") {
        return say::yes_or_no(out, text::is_text(b));
    }
    if text::same(verb, b"trace") {
        return say::events(out, trace::check(b));
    }
    say::unknown(out)
}

fn of_topic(domain: &[u8], topic: &[u8], out: &mut [u8]) -> usize
    ensures { Adds out.old 0 (of_topic domain.now topic.now) result out.new }
{
    match topic::read(domain, topic) {
        Ok(t) => say::form(out, topic, t),
        Err(r) => say::refused(out, r.number()),
    }
}

fn of_description(own: &[u8], s: &[u8], out: &mut [u8]) -> usize
    ensures { Adds out.old 0 (of_description own.now s.now) result out.new }
{
    let t = description::judge(own, s);
    say::taken(out, t)
}

fn of_event(file: &[u8], i: u64, out: &mut [u8]) -> usize
    ensures { Adds out.old 0 (of_event file.now i) result out.new }
{
    match trace::read(file, i as usize) {
        Err(r) => say::refused(out, r.number()),
        Ok(e) => say::event(out, file, e),
    }
}

fn of_append(
    buffer: &mut [u8],
    used: u64,
    time: u64,
    topic: &[u8],
    retained: bool,
    payload: &[u8],
    out: &mut [u8],
) -> usize
    ensures { Adds out.old 0 (of_append buffer.old used time topic.now retained payload.now) result out.new }
{
    let w = trace::append(buffer, used as usize, time, topic, retained, payload);
    say::used(out, buffer, w)
}

// A line of two words.
fn two(line: &[u8], out: &mut [u8]) -> usize
    requires { length line.now ≤ 65536 }
    ensures { Adds out.old 0 (two_words line.now) result out.new }
{
    let mut mem = lines::large_buffer();
    let Some(n) = lines::hex::decode(lines::word::at(line, 1), &mut mem) else {
        return say::unknown(out);
    };
    of_bytes(lines::word::at(line, 0), &mem[0..n], out)
}

// Kept by hand: this and `description_line` differ in the question alone; one function for both would take it as a closure, with a contract longer than the second function.
fn topic_line(line: &[u8], out: &mut [u8]) -> usize
    requires { length line.now ≤ 65536 }
    ensures { Adds out.old 0 (topic_line (word_at line.now 1) (word_at line.now 2)) result out.new }
{
    let mut mem = lines::large_buffer();
    let Some(n) = lines::hex::decode(lines::word::at(line, 1), &mut mem) else {
        return say::unknown(out);
    };
    let mut mem2 = lines::large_buffer();
    let Some(k) = lines::hex::decode(lines::word::at(line, 2), &mut mem2) else {
        return say::unknown(out);
    };
    of_topic(&mem[0..n], &mem2[0..k], out)
}

fn description_line(line: &[u8], out: &mut [u8]) -> usize
    requires { length line.now ≤ 65536 }
    ensures { Adds out.old 0 (description_line (word_at line.now 1) (word_at line.now 2)) result out.new }
{
    let mut mem = lines::large_buffer();
    let Some(n) = lines::hex::decode(lines::word::at(line, 1), &mut mem) else {
        return say::unknown(out);
    };
    let mut mem2 = lines::large_buffer();
    let Some(k) = lines::hex::decode(lines::word::at(line, 2), &mut mem2) else {
        return say::unknown(out);
    };
    of_description(&mem[0..n], &mem2[0..k], out)
}

fn format_line(line: &[u8], out: &mut [u8]) -> usize
    requires { length line.now ≤ 65536 }
    ensures { Adds out.old 0 (format_line (word_at line.now 1) (word_at line.now 2)) result out.new }
{
    let Some(d) = payload::read_datatype(lines::word::at(line, 1)) else {
        return say::unknown(out);
    };
    let mut mem = lines::large_buffer();
    let Some(n) = lines::hex::decode(lines::word::at(line, 2), &mut mem) else {
        return say::unknown(out);
    };
    say::yes_or_no(out, payload::is_format(d, &mem[0..n]))
}

fn event_line(line: &[u8], out: &mut [u8]) -> usize
    requires { length line.now ≤ 65536 }
    ensures { Adds out.old 0 (event_line (word_at line.now 1) (word_at line.now 2)) result out.new }
{
    let mut mem = lines::large_buffer();
    let Some(n) = lines::hex::decode(lines::word::at(line, 1), &mut mem) else {
        return say::unknown(out);
    };
    let Some(i) = lines::number::read(lines::word::at(line, 2)) else {
        return say::unknown(out);
    };
    of_event(&mem[0..n], i, out)
}

// A line of three words.
fn three(line: &[u8], out: &mut [u8]) -> usize
    requires { length line.now ≤ 65536 }
    ensures { Adds out.old 0 (three_words line.now) result out.new }
{
    let verb = lines::word::at(line, 0);
    if text::same(verb, b"topic") {
        return topic_line(line, out);
    }
    if text::same(verb, b"description") {
        return description_line(line, out);
    }
    if text::same(verb, b"format") {
        return format_line(line, out);
    }
    if text::same(verb, b"event") {
        return event_line(line, out);
    }
    say::unknown(out)
}

fn payload_line(line: &[u8], out: &mut [u8]) -> usize
    requires { length line.now ≤ 65536 }
    ensures { Adds out.old 0 (payload_line (word_at line.now 1) (word_at line.now 2) (word_at line.now 3)) result out.new }
{
    let Some(d) = payload::read_datatype(lines::word::at(line, 1)) else {
        return say::unknown(out);
    };
    let mut mem = lines::large_buffer();
    let Some(n) = lines::hex::decode(lines::word::at(line, 2), &mut mem) else {
        return say::unknown(out);
    };
    let mut mem2 = lines::large_buffer();
    let Some(k) = lines::hex::decode(lines::word::at(line, 3), &mut mem2) else {
        return say::unknown(out);
    };
    say::yes_or_no(out, payload::judge(d, &mem[0..n], &mem2[0..k]))
}

// A line of four words.
fn four(line: &[u8], out: &mut [u8]) -> usize
    requires { length line.now ≤ 65536 }
    ensures { Adds out.old 0 (four_words line.now) result out.new }
{
    if text::same(lines::word::at(line, 0), b"payload") {
        return payload_line(line, out);
    }
    say::unknown(out)
}

// The event of an append, in the words from the third on.
fn append_event(line: &[u8], out: &mut [u8], buffer: &mut [u8], used: u64) -> usize
    requires { length line.now ≤ 65536 }
    ensures { Adds out.old 0 (event_words buffer.old used line.now) result out.new }
{
    let Some(time) = lines::number::read(lines::word::at(line, 3)) else {
        return say::unknown(out);
    };
    let mut mem2 = lines::large_buffer();
    let Some(n) = lines::hex::decode(lines::word::at(line, 4), &mut mem2) else {
        return say::unknown(out);
    };
    let Some(retained) = lines::flag::read(lines::word::at(line, 5)) else {
        return say::unknown(out);
    };
    let mut mem3 = lines::large_buffer();
    let Some(k) = lines::hex::decode(lines::word::at(line, 6), &mut mem3) else {
        return say::unknown(out);
    };
    of_append(buffer, used, time, &mem2[0..n], retained, &mem3[0..k], out)
}

fn append_line(line: &[u8], out: &mut [u8]) -> usize
    requires { length line.now ≤ 65536 }
    ensures { Adds out.old 0 (append_words line.now) result out.new }
{
    let mut mem = lines::large_buffer();
    let Some(n) = lines::hex::decode(lines::word::at(line, 1), &mut mem) else {
        return say::unknown(out);
    };
    let Some(used) = lines::number::read(lines::word::at(line, 2)) else {
        return say::unknown(out);
    };
    append_event(line, out, &mut mem[0..n], used)
}

// A line of seven words.
fn seven(line: &[u8], out: &mut [u8]) -> usize
    requires { length line.now ≤ 65536 }
    ensures { Adds out.old 0 (seven_words line.now) result out.new }
{
    if text::same(lines::word::at(line, 0), b"append") {
        return append_line(line, out);
    }
    say::unknown(out)
}

// The answer to a line.
pub(crate) fn answer(line: &[u8], out: &mut [u8]) -> usize
    requires { length line.now ≤ 65536 }
    ensures { Adds out.old 0 (answer_to line.now) result out.new }
{
    let n = lines::word::count(line);
    if n == 2 {
        return two(line, out);
    }
    if n == 3 {
        return three(line, out);
    }
    if n == 4 {
        return four(line, out);
    }
    if n == 7 {
        return seven(line, out);
    }
    say::unknown(out)
}
