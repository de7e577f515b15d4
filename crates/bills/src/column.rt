//! The column of bills: one toll an event, in any tariff's kind of toll.
ghost use Rattle.std.specs.Prelude.{◌≡◌, ℕ, ◌≤◌, length, slice_index_or};
ghost use Rattle.bills.specs.Columns.{Billed};

use crate::event_bill::write_bill;
use carry::rule::Carry;
use tariff::charges::Tariff;
use timetable::plannable::Plannable;

/// The bills of a day, in cells that the caller lends.
#[derive(Drop)]
pub struct Bills<'a, X> {
    pub cells: &'a mut [X],
}

impl<X: Copy> Bills<'_, X> {
    /// Writes every event's bill, from the last event down; further cells keep their contents.
    pub fn fill<R: Carry, T: Tariff<Toll = X>>(&mut self, tariff: &T, ahead: &Plannable<'_, R>)
        requires { length ahead.now.forecast.day.sheet.events.now ≤ length self.old.cells.now }
        ensures billed { Billed (T.prices tariff.now) (R.hands ahead.now.forecast.rule.now) ahead.now.forecast.day self.new.cells.now }
        ensures beyond { (other : X) (k : ℕ) → length ahead.now.forecast.day.sheet.events.now ≤ k → slice_index_or self.new.cells.now k other ≡ slice_index_or self.old.cells.now k other }
        ensures long { length self.new.cells.now ≡ length self.old.cells.now }
        ensures kept { self.new.cells.ghost_name ≡ self.old.cells.ghost_name }
    {
        // by number, since a bill is reckoned from those written before it
        for e in (0..ahead.forecast.day.sheet.events.len()).rev() {
            write_bill(tariff, ahead, self.cells, e);
        }
    }
}

/// Fills the column of bills that lies over these cells.
pub fn fill_bills<R: Carry, T: Tariff>(tariff: &T, ahead: &Plannable<'_, R>, cells: &mut [T::Toll])
    requires { length ahead.now.forecast.day.sheet.events.now ≤ length cells.old }
    ensures billed { Billed (T.prices tariff.now) (R.hands ahead.now.forecast.rule.now) ahead.now.forecast.day cells.new }
    ensures long { length cells.new ≡ length cells.old }
{
    let mut column = Bills { cells };
    column.fill(tariff, ahead);
}
