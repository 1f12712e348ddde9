//! Counts that stay at their last value.

ghost use Rattle.std.specs.Prelude.{◌≡◌, ◌+◌, ◌-◌, ◌^◌, min};
ghost use Rattle.named_columns.specs.Counts.{logged_as};

use monitor_model::verdict::Noted;

/// One more, or the last value.
pub fn one_more(count: u64) -> u64
    ensures { result ≡ min (count + 1) (2 ^ 64 - 1) }
{
    count.saturating_add(1)
}

/// One more where a text was logged.
pub fn with_line(count: u64, answer: &Noted) -> u64
    ensures { result ≡ min (count + logged_as answer.now) (2 ^ 64 - 1) }
{
    match answer {
        Noted::Logged => one_more(count),
        Noted::Denied(_) => count,
    }
}
