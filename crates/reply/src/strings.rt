// A string of a description's text, decoded.
ghost use Rattle.std.specs.Prelude.{◌≤◌, length};
ghost use Rattle.fields.specs.Values.{decoded_at};
ghost use Rattle.reply.specs.Strings.{said_at, string_in, StringTold};

use crate::{refusal_code, tell_value};
use faults::FaultKind;

// The most bytes that a description has.
const TEXT_MOST: usize = 8192;

fn tell_decoded(out: &mut [u64], buffer: &mut [u8], s: &[u8], k: usize) -> u32
    requires { length s.now ≤ 8192 }
    ensures { StringTold (said_at k (decoded_at s.now k)) out.old buffer.old result out.new buffer.new }
{
    match fields::decode_at(s, k, buffer) {
        Err(p) => refusal_code(FaultKind::RuleBroken.number(), p),
        Ok(n) => tell_value(out, n as u64),
    }
}

// The length of the string at `k`, its bytes at the front of `buffer` if they fit.
pub fn tell_string(out: &mut [u64], buffer: &mut [u8], s: &[u8], k: usize) -> u32
    ensures { StringTold (string_in s.now k) out.old buffer.old result out.new buffer.new }
{
    if s.len() > TEXT_MOST {
        return refusal_code(FaultKind::NotJson.number(), TEXT_MOST);
    }
    match json_text::string::string(s, k) {
        Err(_) => refusal_code(FaultKind::WrongKind.number(), k.min(s.len())),
        Ok(_) => tell_decoded(out, buffer, s, k),
    }
}
