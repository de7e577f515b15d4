//! Making a forecast.
ghost use Rattle.std.specs.Prelude.{◌≡◌, ◌≤◌, length};

use crate::day::Day;
use crate::forecast::Forecast;
use carry::rule::Carry;

impl<'a, R: Carry> Forecast<'a, R> {
    /// The forecast of a day under a rule; the worst timetable is written into the front of the table.
    pub fn new(rule: &'a R, day: Day<'a>, worst: &'a mut [u16]) -> Forecast<'a, R>
        requires { length day.sheet.events.now ≤ length worst.old }
        ensures rule { result.rule.now ≡ rule.now }
        ensures day { result.day ≡ day.entry }
    {
        day.write_worst(rule, worst);
        Forecast { rule, day, worst }
    }
}
