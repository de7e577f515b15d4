//! A forecast with nothing in the way of a plan. Its ghost field says so.
ghost use Rattle.model.specs.Laws.{Clear};
ghost use Rattle.timetable.specs.Days.{yard_of};

use crate::forecast::Forecast;
use carry::rule::Carry;

pub mod make;

/// A forecast by which delays meet at no event, and no lot is tangled.
#[derive(Drop)]
pub struct Plannable<'a, R: Carry> {
    pub forecast: Forecast<'a, R>,
    pub ghost clear: { Clear (yard_of (R.hands forecast.rule.now) forecast.day) },
}
