//! A day surveyed: its worst timetable, its live activities, and the verdict.
ghost use Rattle.std.specs.Prelude.{◌≡◌, ◌≤◌, length};
ghost use Rattle.timetable.specs.Days.{yard_of};
ghost use Rattle.outlook.specs.Outlook.{ShowsWorst, ShowsLive, verdict_of};

use crate::answer::Verdict;
use carry::rule::Carry;
use timetable::day::Day;
use timetable::forecast::Forecast;

/// Writes which activities are live by a forecast.
fn write_live<R: Carry>(forecast: &Forecast<'_, R>, lives: &mut [bool])
    requires { length forecast.now.day.sheet.activities.now ≤ length lives.old }
    ensures { ShowsLive (yard_of (R.hands forecast.now.rule.now) forecast.now.day) lives.old lives.new }
{
    let activities = forecast.day.sheet.activities.len();
    for (a, cell) in lives[..activities].iter_mut().enumerate() {
        *cell = forecast.is_live(a);
    }
}

/// Writes a day's worst timetable and live activities, and answers the verdict on it.
pub(crate) fn survey<R: Carry>(rule: &R, day: Day, late: &mut [u16], lives: &mut [bool]) -> Verdict
    requires late { length day.sheet.events.now ≤ length late.old }
    requires live { length day.sheet.activities.now ≤ length lives.old }
    ensures verdict { result ≡ verdict_of (yard_of (R.hands rule.now) day.entry) }
    ensures late { ShowsWorst (yard_of (R.hands rule.now) day.entry) late.old late.new }
    ensures live { ShowsLive (yard_of (R.hands rule.now) day.entry) lives.old lives.new }
{
    // made here and not by Forecast::new, whose table is lent for good: here its further cells are promised as well
    day.write_worst(rule, late);
    let forecast = Forecast {
        rule,
        day,
        worst: late,
    };
    write_live(&forecast, lives);
    Verdict(forecast.clear().err())
}
