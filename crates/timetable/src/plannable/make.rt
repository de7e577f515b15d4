//! From a forecast to a plannable one.
ghost use Rattle.std.specs.Prelude.{◌≡◌, IfOk};
ghost use Rattle.std.specs.Result.{result_err};
ghost use Rattle.timetable.specs.Days.{yard_of};
ghost use Rattle.timetable.specs.Hindrances.{hindered};

use crate::forecast::Forecast;
use crate::forecast::hindrance::Hindrance;
use crate::plannable::Plannable;
use carry::rule::Carry;

impl<'a, R: Carry> Forecast<'a, R> {
    /// The forecast, if a plan can be made by it, or what stands in the way.
    pub fn plannable(self) -> Result<Plannable<'a, R>, Hindrance>
        ensures refuses { result_err result ≡ hindered (yard_of (R.hands self.entry.rule.now) self.entry.day) }
        ensures rule { IfOk result (λ plannable. plannable.forecast.rule.now ≡ self.entry.rule.now) }
        ensures day { IfOk result (λ plannable. plannable.forecast.day ≡ self.entry.day) }
    {
        self.clear()?;
        Ok(Plannable { forecast: self })
    }
}
