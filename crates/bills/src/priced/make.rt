//! From a plannable forecast to one with its bills.
ghost use Rattle.std.specs.Prelude.{◌≡◌, ◌≤◌, length};

use crate::column::fill_bills;
use crate::priced::Priced;
use carry::rule::Carry;
use tariff::charges::Tariff;
use timetable::plannable::Plannable;

impl<'a, R: Carry, T: Tariff> Priced<'a, R, T> {
    /// The bills of a plannable forecast, written into the front of the cells.
    pub fn new(
        tariff: &'a T,
        ahead: &'a Plannable<'a, R>,
        cells: &'a mut [T::Toll],
    ) -> Priced<'a, R, T>
        requires { length ahead.now.forecast.day.sheet.events.now ≤ length cells.old }
        ensures tariff { result.tariff.now ≡ tariff.now }
        ensures forecast { result.forecast.now ≡ ahead.now.forecast }
    {
        fill_bills(tariff, ahead, cells);
        Priced {
            forecast: &ahead.forecast,
            tariff,
            bills: cells,
        }
    }
}
