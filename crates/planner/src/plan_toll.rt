//! What a plan would cost, with no plan written.
ghost use Rattle.std.specs.Prelude.{◌≡◌, ◌≤◌, length, IfOk};
ghost use Rattle.std.specs.Result.{result_err};
ghost use Rattle.timetable.specs.Days.{yard_of};
ghost use Rattle.timetable.specs.Hindrances.{hindered};
ghost use Rattle.planner.specs.Plans.{TollOfPlan};

use bills::priced::Priced;
use carry::rule::Carry;
use owed::by_bills::toll_by_bills;
use tariff::charges::Tariff;
use timetable::day::Day;
use timetable::forecast::Forecast;
use timetable::forecast::hindrance::Hindrance;

/// The toll that a plan of the day would have, or what stands in its way; `worst` and `cells` are for the work.
pub fn plan_toll<R: Carry, T: Tariff>(
    rule: &R,
    tariff: &T,
    day: Day,
    worst: &mut [u16],
    cells: &mut [T::Toll],
) -> Result<T::Toll, Hindrance>
    requires work { (length day.sheet.events.now ≤ length worst.old) × (length day.sheet.events.now ≤ length cells.old) }
    ensures refuses { result_err result ≡ hindered (yard_of (R.hands rule.now) day.entry) }
    ensures toll { IfOk result (λ toll. TollOfPlan (T.prices tariff.now) (yard_of (R.hands rule.now) day.entry) toll) }
{
    let ahead = Forecast::new(rule, day, worst).plannable()?;
    let priced = Priced::new(tariff, &ahead, cells);
    Ok(toll_by_bills(tariff, &day, priced.bills))
}
