//! How many unmarked transfers go.
ghost use Rattle.std.specs.Prelude.{◌≡◌, ℕ, ◌<◌, ◌≤◌, length};
ghost use Rattle.timetable.specs.Days.{yard_of};
ghost use Rattle.choice.specs.Chosen.{goes_unmarked, gone_count};

use timetable::day::Day;
use timetable::day::stance::Stance;

/// Whether `a` is an unmarked transfer that goes.
fn goes_unmarked(day: &Day, gone: &[u8], a: usize) -> bool
    requires within { a < length day.now.sheet.activities.now }
    requires room { length day.now.sheet.activities.now ≤ length gone.now }
    ensures { (rule : ℕ → ℕ → ℕ) → result ≡ goes_unmarked (yard_of rule day.now) gone.now a }
{
    match day.stance(a) {
        Stance::Open => gone[a] == 1,
        Stance::Bound | Stance::Gone => false,
    }
}

/// How many unmarked transfers have the byte 1.
pub fn count_gone(day: &Day, gone: &[u8]) -> usize
    requires { length day.now.sheet.activities.now ≤ length gone.now }
    ensures { (rule : ℕ → ℕ → ℕ) → result ≡ gone_count (yard_of rule day.now) gone.now }
{
    (0..day.sheet.activities.len())
        .filter(|a| goes_unmarked(day, gone, *a))
        .count()
}
