//! The plan.
ghost use Rattle.std.specs.Prelude.{◌≡◌, ℕ, ◌<◌, ◌≤◌, length, IfOk, IfErr, slice_index};
ghost use Rattle.std.specs.Result.{result_err};
ghost use Rattle.timetable.specs.Days.{yard_of};
ghost use Rattle.timetable.specs.Hindrances.{hindered};
ghost use Rattle.planner.specs.Plans.{PlanIn};

use bills::priced::Priced;
use carry::rule::Carry;
use choice::choose::choose;
use tariff::charges::Tariff;
use timetable::day::Day;
use timetable::forecast::Forecast;
use timetable::forecast::hindrance::Hindrance;
use tolls::written::toll_of;

/// Writes a plan, a byte an activity into `gone` and a lateness an event into `late`, and answers its toll and how many unmarked transfers go;
/// `worst` and `cells` are for the work. Where something stands in the way, `late` and `gone` keep their contents.
// over plain slices, since its promises are about each: what a refusal leaves, and the cells past the events
// the rule and the tariff come apart: reserves are asked of a rule alone, bills and tolls of a tariff alone
pub fn plan<R: Carry, T: Tariff>(
    rule: &R,
    tariff: &T,
    day: Day,
    worst: &mut [u16],
    cells: &mut [T::Toll],
    late: &mut [u16],
    gone: &mut [u8],
) -> Result<(T::Toll, usize), Hindrance>
    requires work { (length day.sheet.events.now ≤ length worst.old) × (length day.sheet.events.now ≤ length cells.old) }
    requires room { (length day.sheet.events.now ≤ length late.old) × (length day.sheet.activities.now ≤ length gone.old) }
    ensures refuses { result_err result ≡ hindered (yard_of (R.hands rule.now) day.entry) }
    ensures untouched { IfErr result (λ h. (late.new ≡ late.old) × (gone.new ≡ gone.old)) }
    ensures planned { IfOk result (λ answer. PlanIn (T.prices tariff.now) (yard_of (R.hands rule.now) day.entry) late.new gone.new answer.0 answer.1) }
    ensures late { (e : ℕ) → length day.entry.sheet.events.now ≤ e → slice_index late.new e ≡ slice_index late.old e }
    ensures gone { (a : ℕ) → length day.entry.sheet.activities.now ≤ a → slice_index gone.new a ≡ slice_index gone.old a }
{
    let ahead = Forecast::new(rule, day, worst).plannable()?;
    let priced = Priced::new(tariff, &ahead, cells);
    let count = choose(&priced, late, gone);
    let toll = toll_of(tariff, &day, late, gone);
    Ok((toll, count))
}
