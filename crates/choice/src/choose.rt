//! The choice with its lateness.
ghost use Rattle.std.specs.Prelude.{◌≡◌, ℕ, ◌≤◌, length, slice_index};
ghost use Rattle.timetable.specs.Days.{yard_of};
ghost use Rattle.choice.specs.Chosen.{Chosen, gone_count};

use crate::count::count_gone;
use crate::decide::{keep_punctual, write_cheap};
use bills::priced::Priced;
use carry::rule::Carry;
use tariff::charges::Tariff;
use timetable::choosing::GoneTable;

/// Writes the choice by bills, a byte an activity, and its least lateness, a cell an event, and answers how many unmarked transfers go.
/// Further cells keep their contents.
// over plain slices, as a plan is
pub fn choose<R: Carry, T: Tariff>(
    priced: &Priced<'_, R, T>,
    late: &mut [u16],
    gone: &mut [u8],
) -> usize
    requires late { length priced.now.forecast.now.day.sheet.events.now ≤ length late.old }
    requires gone { length priced.now.forecast.now.day.sheet.activities.now ≤ length gone.old }
    ensures chosen { Chosen (T.prices priced.now.tariff.now) (yard_of (R.hands priced.now.forecast.now.rule.now) priced.now.forecast.now.day) late.new gone.new }
    ensures count { result ≡ gone_count (yard_of (R.hands priced.now.forecast.now.rule.now) priced.now.forecast.now.day) gone.new }
    ensures late { (e : ℕ) → length priced.now.forecast.now.day.sheet.events.now ≤ e → slice_index late.new e ≡ slice_index late.old e }
    ensures gone { (a : ℕ) → length priced.now.forecast.now.day.sheet.activities.now ≤ a → slice_index gone.new a ≡ slice_index gone.old a }
{
    let day = &priced.forecast.day;
    write_cheap(priced, gone);
    day.write_least(priced.forecast.rule, &GoneTable { gone }, late);
    // a transfer that is not late hands on nothing, so the lateness stays
    keep_punctual(day, late, gone);
    count_gone(day, gone)
}
