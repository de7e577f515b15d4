//! What stands in the way of a plan.
ghost use Rattle.std.specs.Prelude.{◌≡◌};
ghost use Rattle.std.specs.Result.{result_err};
ghost use Rattle.timetable.specs.Days.{yard_of};
ghost use Rattle.timetable.specs.Hindrances.{hindered};

use crate::forecast::Forecast;
use carry::rule::Carry;

/// Why there is no plan.
#[derive(Clone, Copy, PartialEq, Eq, Debug)]
pub enum Hindrance {
    /// Delays meet at this event, and at none before it.
    Meeting(usize),
    /// This lot is tangled, and none before it.
    Tangle(usize),
}

impl<R: Carry> Forecast<'_, R> {
    /// Whether a plan can be made, or what stands in its way: meeting delays before tangled lots.
    pub fn clear(&self) -> Result<(), Hindrance>
        ensures { result_err result ≡ hindered (yard_of (R.hands self.now.rule.now) self.now.day) }
    {
        if let Some(event) = self.first_meeting() {
            return Err(Hindrance::Meeting(event));
        }
        if let Some(lot) = self.first_tangled() {
            return Err(Hindrance::Tangle(lot));
        }
        Ok(())
    }
}
