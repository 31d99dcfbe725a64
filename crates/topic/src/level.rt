// Tests of a topic's levels.
ghost use Rattle.std.specs.Prelude.{◌≡◌, ℕ, List, Bool};
ghost use Rattle.topic.specs.Words.{log_levels};
ghost use Rattle.topic.specs.Topics.{each, one_of, dollar_id};
ghost use Rattle.topic.specs.Parts.{levels_from};

// Whether every level from `at` on passes a test.
pub fn all_pass<F: Fn(&[u8]) -> bool>(topic: &[u8], at: usize, test: F) -> bool
    requires { F.IsAlwaysCallable test }
    ensures { (passes : List ℕ → Bool) → ((level : _) (r : _) → F.post test level r → r ≡ passes level.now) → result ≡ each passes (levels_from topic.now at) }
{
    match topic.get(at..) {
        Some(levels) => levels.split(|b| *b == b'/').all(test),
        None => true,
    }
}

// Whether a level is one of the five log levels.
pub fn is_log_level(s: &[u8]) -> bool
    ensures { result ≡ one_of log_levels s.now }
{
    text::same(s, b"debug")
        || text::same(s, b"info")
        || text::same(s, b"warn")
        || text::same(s, b"error")
        || text::same(s, b"fatal")
}

// Whether a level is `$` and an ID.
pub fn is_dollar_id(s: &[u8]) -> bool
    ensures { result ≡ dollar_id s.now }
{
    !s.is_empty() && s[0] == b'$' && text::is_id(&s[1..])
}
