//! One event's bill, from the bills of the events after it.
ghost use Rattle.std.specs.Prelude.{◌≡◌, ℕ, ◌+◌, ◌<◌, ◌≤◌, ◌&&◌, length, ◌==◌, slice_index_or, slice_set};
ghost use Rattle.model.specs.Yard.{tail};
ghost use Rattle.model.specs.Meeting.{live};
ghost use Rattle.model.specs.Laws.{event_bill};
ghost use Rattle.timetable.specs.Days.{yard_of};
ghost use Rattle.bills.specs.Columns.{lesser, BilledFrom};

use crate::charges::{late_lots, miss_bill};
use carry::rule::Carry;
use tariff::charges::Tariff;
use timetable::day::Day;
use timetable::day::stance::Stance;
use timetable::forecast::Forecast;
use timetable::plannable::Plannable;

/// The cell of an event.
pub fn bill_cell<X: Copy>(cells: &[X], e: usize) -> X
    requires { e < length cells.now }
    ensures { (other : X) → result ≡ slice_index_or cells.now e other }
{
    cells[e]
}

/// Sets the cell of an event.
fn set_bill<X: Copy>(cells: &mut [X], event: usize, bill: X)
    requires { event < length cells.old }
    ensures { cells.new ≡ slice_set cells.old event bill }
{
    cells[event] = bill;
}

/// What activity `a` adds to its tail's bill, where `wait` is its head's: for an unmarked transfer the lesser of that and its miss bill.
pub fn lesser_bill<T: Tariff>(tariff: &T, day: &Day, a: usize, wait: T::Toll) -> T::Toll
    requires { a < length day.now.sheet.activities.now }
    ensures { (rule : ℕ → ℕ → ℕ) → result ≡ lesser (T.prices tariff.now) (yard_of rule day.now) a wait }
{
    match day.stance(a) {
        Stance::Open => {
            let miss = miss_bill(tariff, day, a);
            if tariff.at_most(miss, wait) {
                miss
            } else {
                wait
            }
        }
        Stance::Bound | Stance::Gone => wait,
    }
}

/// Whether activity `a` leaves event `e` and is live.
fn goes_on<R: Carry>(forecast: &Forecast<'_, R>, e: usize, a: usize) -> bool
    requires { a < length forecast.now.day.sheet.activities.now }
    ensures { result ≡ (tail (yard_of (R.hands forecast.now.rule.now) forecast.now.day) a == e && live (yard_of (R.hands forecast.now.rule.now) forecast.now.day) a) }
{
    usize::from(forecast.day.sheet.activities[a].tail) == e && forecast.is_live(a)
}

/// The bill of event `e`, where `cells` holds the bills of the events after it.
fn bill_at<R: Carry, T: Tariff>(
    tariff: &T,
    ahead: &Plannable<'_, R>,
    cells: &[T::Toll],
    e: usize,
) -> T::Toll
    requires within { e < length ahead.now.forecast.day.sheet.events.now }
    requires after { BilledFrom (T.prices tariff.now) (R.hands ahead.now.forecast.rule.now) ahead.now.forecast.day cells.now (e + 1) }
    ensures { result ≡ event_bill (T.prices tariff.now) (yard_of (R.hands ahead.now.forecast.rule.now) ahead.now.forecast.day) e }
{
    let forecast = &ahead.forecast;
    let day = &forecast.day;
    let mut sum = late_lots(tariff, day, forecast.worst, e);
    for (a, activity) in day.sheet.activities.iter().enumerate() {
        if goes_on(forecast, e, a) {
            let wait = bill_cell(cells, usize::from(activity.head));
            sum = tariff.add(sum, lesser_bill(tariff, day, a, wait));
        }
    }
    sum
}

/// Writes the bill of event `e`, where `cells` holds the bills of the events after it.
pub fn write_bill<R: Carry, T: Tariff>(
    tariff: &T,
    ahead: &Plannable<'_, R>,
    cells: &mut [T::Toll],
    e: usize,
)
    requires within { e < length ahead.now.forecast.day.sheet.events.now }
    requires after { BilledFrom (T.prices tariff.now) (R.hands ahead.now.forecast.rule.now) ahead.now.forecast.day cells.old (e + 1) }
    ensures { cells.new ≡ slice_set cells.old e (event_bill (T.prices tariff.now) (yard_of (R.hands ahead.now.forecast.rule.now) ahead.now.forecast.day) e) }
{
    let bill = bill_at(tariff, ahead, cells, e);
    set_bill(cells, e, bill);
}
