// Times as payloads write them: datetimes and durations.
#![tactic(auto)]

ghost use Rattle.std.specs.Prelude.{◌≡◌, ◌&&◌, ◌+◌, ◌≤◌, eqb, drop};
ghost use Rattle.times.specs.Datetime.{is_leap, month_length, is_date, is_datetime};
ghost use Rattle.times.specs.Duration.{is_duration};
ghost use Rattle.times.specs.Parts.{byte_at, digit_of, pair_at, at_most, digits, is_clock, is_sign, date_at, time_at, zone_at, ending_at, span_end};

// Whether the byte `b` stands at `at`.
fn has(s: &[u8], at: usize, b: u8) -> bool
    ensures { result ≡ eqb (byte_at s.now at) b }
{
    s.get(at) == Some(&b)
}

// The value of the digit at `at`.
fn digit(s: &[u8], at: usize) -> Option<u8>
    ensures { result ≡ digit_of (byte_at s.now at) }
{
    let b = *s.get(at)?;
    if b.is_ascii_digit() {
        Some(b - b'0')
    } else {
        None
    }
}

// The number of the two digits at `at`.
fn pair(s: &[u8], at: usize) -> Option<u8>
    requires { at ≤ 64 }
    ensures { result ≡ pair_at s.now at }
{
    let a = digit(s, at)?;
    let b = digit(s, at + 1)?;
    Some(10 * a + b)
}

// Whether two digits at `at` write a number of at most `most`.
fn pair_to(s: &[u8], at: usize, most: u8) -> bool
    requires { at ≤ 64 }
    ensures { result ≡ at_most most (pair_at s.now at) }
{
    pair(s, at).is_some_and(|n| n <= most)
}

#[tactic(auto, unfolding(crate::specs::Datetime::is_leap))]
fn is_leap(year: u16) -> bool
    ensures { result ≡ is_leap year }
{
    (year % 4 == 0) && ((year % 100 != 0) || (year % 400 == 0))
}

// February has 28 days, 29 in a leap year; April, June, September and November have 30, the others 31.
fn month_length(year: u16, month: u8) -> u8
    requires { (1 ≤ month) × (month ≤ 12) }
    ensures { result ≡ month_length year month }
{
    match month {
        2 => { if is_leap(year) { 29 } else { 28 } }
        4 | 6 | 9 | 11 => 30,
        _ => 31,
    }
}

#[tactic(auto, unfolding(crate::specs::Datetime::is_date))]
fn is_date(year: u16, month: u8, day: u8) -> bool
    ensures { result ≡ is_date year month day }
{
    (month >= 1) && (month <= 12) && (day >= 1) && (day <= month_length(year, month))
}

// `YYYY-MM-DD` at the front, and a date of the calendar.
fn date(s: &[u8]) -> bool
    ensures { result ≡ date_at s.now }
{
    let (Some(century), Some(year)) = (pair(s, 0), pair(s, 2)) else {
        return false;
    };
    let (Some(month), Some(day)) = (pair(s, 5), pair(s, 8)) else {
        return false;
    };
    has(s, 4, b'-')
        && has(s, 7, b'-')
        && is_date(100 * u16::from(century) + u16::from(year), month, day)
}

// `HH:MM` at `at`.
#[tactic(auto, unfolding(crate::specs::Parts::is_clock))]
fn clock(s: &[u8], at: usize) -> bool
    requires { at ≤ 60 }
    ensures { result ≡ is_clock s.now at }
{
    pair_to(s, at, 23) && has(s, at + 2, b':') && pair_to(s, at + 3, 59)
}

// `THH:MM:SS` after the date.
#[tactic(auto, unfolding(crate::specs::Parts::time_at))]
fn time(s: &[u8]) -> bool
    ensures { result ≡ time_at s.now }
{
    has(s, 10, b'T') && clock(s, 11) && has(s, 16, b':') && pair_to(s, 17, 59)
}

// Where the digits from `at` end, nine at most.
fn digits_end(s: &[u8], at: usize) -> usize
    requires { at ≤ 60 }
    ensures { result ≡ at + digits 9 (drop at s.now) }
{
    for e in at..at + 9 {
        if digit(s, e).is_none() {
            return e;
        }
    }
    at + 9
}

#[tactic(auto, unfolding(crate::specs::Parts::is_sign))]
fn sign(s: &[u8], at: usize) -> bool
    ensures { result ≡ is_sign (byte_at s.now at) }
{
    has(s, at, b'+') || has(s, at, b'-')
}

// Nothing, or `Z`, or sign `HH:MM`, and then the end.
#[tactic(auto, unfolding(crate::specs::Parts::zone_at))]
fn zone(s: &[u8], at: usize) -> bool
    requires { at ≤ 40 }
    ensures { result ≡ zone_at s.now at }
{
    if s.len() <= at {
        return true;
    }
    if has(s, at, b'Z') {
        return s.len() <= at + 1;
    }
    sign(s, at) && clock(s, at + 1) && (s.len() <= at + 6)
}

// What may stand after the seconds.
#[tactic(auto, unfolding(crate::specs::Parts::ending_at))]
fn ending(s: &[u8]) -> bool
    ensures { result ≡ ending_at s.now }
{
    if !has(s, 19, b'.') {
        return zone(s, 19);
    }
    let e = digits_end(s, 20);
    (e != 20) && zone(s, e)
}

pub fn is_datetime(s: &[u8]) -> bool
    ensures { result ≡ is_datetime s.now }
{
    date(s) && time(s) && ending(s)
}

// Past 1 to 9 digits and the letter at `at`; at `at` itself where these are not there.
fn span_end(s: &[u8], at: usize, letter: u8) -> usize
    requires { at ≤ 40 }
    ensures { result ≡ span_end s.now at letter }
{
    let e = digits_end(s, at);
    if (e != at) && has(s, e, letter) {
        e + 1
    } else {
        at
    }
}

pub fn is_duration(s: &[u8]) -> bool
    ensures { result ≡ is_duration s.now }
{
    let hours = span_end(s, 2, b'H');
    let minutes = span_end(s, hours, b'M');
    let seconds = span_end(s, minutes, b'S');
    has(s, 0, b'P') && has(s, 1, b'T') && (seconds != 2) && (s.len() <= seconds)
}
