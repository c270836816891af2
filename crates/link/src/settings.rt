// Whether the numbers that the installer sets are in their ranges. Functions and no methods, since `rules` holds types alone.
ghost use Rattle.std.specs.Prelude.{◌≡◌};
ghost use Rattle.rules.specs.Settings.{limits_in_range, times_in_range, in_range_of};

use rules::settings::Settings;

// Whether A, W, N and E are in their ranges.
fn limits_in_range(s: Settings) -> bool
    ensures { result ≡ limits_in_range s }
{
    (1..=100000).contains(&s.age)
        && (0..=100000).contains(&s.spread)
        && (1..=1000).contains(&s.jump)
        && (1..=2).contains(&s.errors)
}

// Whether R, S, T and C are in theirs.
fn times_in_range(s: Settings) -> bool
    ensures { result ≡ times_in_range s }
{
    (2..=1000000).contains(&s.silence)
        && (1..s.silence).contains(&s.life_sign)
        && (1..=1000000).contains(&s.wait)
        && (s.wait..=1000000).contains(&s.retry)
}

pub fn in_range(s: Settings) -> bool
    ensures { result ≡ in_range_of s }
{
    limits_in_range(s) && times_in_range(s)
}
