//! A forecast with its bills. Its ghost field says that its table holds them.
ghost use Rattle.bills.specs.Columns.{Billed};

use carry::rule::Carry;
use tariff::charges::Tariff;
use timetable::forecast::Forecast;

pub mod make;

/// A forecast under a tariff, with the bill of every event in a table that the caller lends.
#[derive(Drop)]
pub struct Priced<'a, R: Carry, T: Tariff> {
    pub forecast: &'a Forecast<'a, R>,
    pub tariff: &'a T,
    /// By the number of the event.
    pub bills: &'a [T::Toll],
    pub ghost billed: { ∥ Billed (T.prices tariff.now) (R.hands forecast.now.rule.now) forecast.now.day bills.now ∥₁ },
}
