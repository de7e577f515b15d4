//! What a day's delays lead to at worst. Its ghost field says that its table holds the worst timetable.
ghost use Rattle.timetable.specs.Days.{WorstIn};

use crate::day::Day;
use carry::rule::Carry;

pub mod hindrance;
pub mod live;
pub mod make;
pub mod meeting;
pub mod tangles;

/// A day under a carry rule, with the worst timetable in a table that the caller lends.
#[derive(Drop)]
pub struct Forecast<'a, R: Carry> {
    pub rule: &'a R,
    pub day: Day<'a>,
    /// By the number of the event.
    pub worst: &'a [u16],
    pub ghost holds: { WorstIn (R.hands rule.now) day worst.now },
}
