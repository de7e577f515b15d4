//! Live activities.
ghost use Rattle.std.specs.Prelude.{◌≡◌, ◌<◌, length};
ghost use Rattle.model.specs.Meeting.{live};
ghost use Rattle.timetable.specs.Days.{yard_of};

use crate::day::stance::Stance;
use crate::forecast::Forecast;
use carry::rule::Carry;

impl<R: Carry> Forecast<'_, R> {
    /// Whether activity `a` is live.
    pub fn is_live(&self, a: usize) -> bool
        requires { a < length self.now.day.sheet.activities.now }
        ensures { result ≡ live (yard_of (R.hands self.now.rule.now) self.now.day) a }
    {
        let activity = self.day.sheet.activities[a];
        match self.day.stance(a) {
            Stance::Gone => false,
            Stance::Bound | Stance::Open => {
                let came = self.worst[usize::from(activity.tail)];
                self.rule.carry(activity.margin, came) > 0
            }
        }
    }
}
