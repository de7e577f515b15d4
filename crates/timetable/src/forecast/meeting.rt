//! The first event where delays meet.
ghost use Rattle.std.specs.Prelude.{◌≡◌, ◌<◌, length};
ghost use Rattle.model.specs.Meeting.{into, sources, meets};
ghost use Rattle.timetable.specs.Days.{yard_of};
ghost use Rattle.timetable.specs.Found.{found_first};

use crate::forecast::Forecast;
use carry::rule::Carry;

impl<R: Carry> Forecast<'_, R> {
    /// Whether activity `a` is live and leads to event `e`.
    fn comes_into(&self, e: usize, a: usize) -> bool
        requires { a < length self.now.day.sheet.activities.now }
        ensures { result ≡ into (yard_of (R.hands self.now.rule.now) self.now.day) e a }
    {
        // the head first: it is there to be read, and most activities lead elsewhere
        usize::from(self.day.sheet.activities[a].head) == e && self.is_live(a)
    }

    /// How many sources event `e` has: its live incoming activities, and its own delay if it has one.
    fn count_sources(&self, e: usize) -> usize
        requires { e < length self.now.day.sheet.events.now }
        ensures { result ≡ sources (yard_of (R.hands self.now.rule.now) self.now.day) e }
    {
        let live = (0..self.day.sheet.activities.len())
            .filter(|a| self.comes_into(e, *a))
            .count();
        live + usize::from(self.day.delays[e] > 0)
    }

    /// The first event where delays meet.
    pub fn first_meeting(&self) -> Option<usize>
        ensures { result ≡ found_first (length self.now.day.sheet.events.now) (meets (yard_of (R.hands self.now.rule.now) self.now.day)) }
    {
        (0..self.day.sheet.events.len()).find(|e| self.count_sources(*e) >= 2)
    }
}
