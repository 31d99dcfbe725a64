// Bytes of numbers.
ghost use Rattle.std.specs.Prelude.{◌≡◌, eqb, get_or, ◌^◌, ◌<◌, ◌≤◌};
ghost use Rattle.numbers.specs.Decimal.{is_e};

// The largest power of ten that a u64 holds.
pub const POWER_MOST: u64 = 19;

pub fn power_of_ten(k: u64) -> u64
    requires { k ≤ 19 }
    ensures { result ≡ 10 ^ k }
{
    10u64.pow(k as u32)
}

// The byte `b`, which is not 0, stands at `at`.
pub fn has(s: &[u8], at: usize, b: u8) -> bool
    requires { 0 < b }
    ensures { result ≡ eqb (get_or s.now at 0) b }
{
    s.get(at) == Some(&b)
}

pub fn is_e(b: u8) -> bool
    ensures { result ≡ is_e b }
{
    b == b'e' || b == b'E'
}
