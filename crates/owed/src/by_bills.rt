//! The toll of a plan, by the bills.
ghost use Rattle.std.specs.Prelude.{◌≡◌, ℕ};
ghost use Rattle.timetable.specs.Days.{yard_of};
ghost use Rattle.bills.specs.Columns.{Billed};
ghost use Rattle.owed.specs.Owed.{ClearlyBilled, by_bills};

use crate::struck::struck_charges;
use bills::event_bill::bill_cell;
use tariff::charges::Tariff;
use timetable::day::Day;

/// What a plan of the day would cost, where `cells` holds the bills: the struck lots' charges, and the bill of each event with a noted delay.
pub fn toll_by_bills<T: Tariff>(tariff: &T, day: &Day, cells: &[T::Toll]) -> T::Toll
    requires { ∥ ClearlyBilled (T.prices tariff.now) day.now cells.now ∥₁ }
    ensures { (rule : ℕ → ℕ → ℕ) → Billed (T.prices tariff.now) rule day.now cells.now → result ≡ by_bills (T.prices tariff.now) (yard_of rule day.now) }
{
    let mut sum = struck_charges(tariff, day);
    // by number: cut to the events and zipped, the two tables would say no more
    for e in 0..day.sheet.events.len() {
        if day.delays[e] > 0 {
            sum = tariff.add(sum, bill_cell(cells, e));
        }
    }
    sum
}
