//! The least lateness for a choice, event by event.
ghost use Rattle.std.specs.Prelude.{◌≡◌, ℕ, ◌<◌, ◌≤◌, length, if◌then◌else◌, slice_index};
ghost use Rattle.model.specs.Yard.{handed};
ghost use Rattle.model.specs.Lateness.{binds, least, worst};
ghost use Rattle.timetable.specs.Days.{yard_of};

use crate::choosing::{AllWait, Choosing};
use crate::day::Day;
use crate::day::stance::Stance;
use carry::rule::Carry;

impl Day<'_> {
    /// What activity `a` hands on under the choice of the lateness at its tail: nothing where it goes.
    fn handed_on<R: Carry, C: Choosing>(
        &self,
        rule: &R,
        choosing: &C,
        a: usize,
        lateness: u16,
    ) -> u16
        requires known { (a < length self.now.sheet.activities.now) × (C.knows choosing.now a) }
        requires short { lateness ≤ 1440 }
        ensures { result ≡ (if binds (yard_of (R.hands rule.now) self.now) (C.choice choosing.now) a then handed (yard_of (R.hands rule.now) self.now) a lateness else 0) }
    {
        let waits = match self.stance(a) {
            Stance::Gone => false,
            Stance::Bound => true,
            Stance::Open => choosing.waits(a),
        };
        if waits {
            rule.carry(self.sheet.activities[a].margin, lateness)
        } else {
            0
        }
    }

    /// The lateness of event `e`, where `late` has that of the events before it.
    fn lateness_at<R: Carry, C: Choosing>(
        &self,
        rule: &R,
        choosing: &C,
        late: &[u16],
        e: usize,
    ) -> u16
        requires known { (a : ℕ) → a < length self.now.sheet.activities.now → C.knows choosing.now a }
        requires within { (e < length self.now.sheet.events.now) × (length self.now.sheet.events.now ≤ length late.now) }
        requires before { (k : ℕ) → k < e → slice_index late.now k ≡ least (yard_of (R.hands rule.now) self.now) (C.choice choosing.now) k }
        ensures { result ≡ least (yard_of (R.hands rule.now) self.now) (C.choice choosing.now) e }
    {
        let mut most = self.delays[e];
        // a loop and no chain: its closures would index a table, and each would have to be shown that a tail comes before
        for (a, activity) in self.sheet.activities.iter().enumerate() {
            if usize::from(activity.head) == e {
                let came = self.handed_on(rule, choosing, a, late[usize::from(activity.tail)]);
                most = most.max(came);
            }
        }
        most
    }

    /// Writes the least lateness for a choice, a cell an event; further cells keep their contents.
    pub fn write_least<R: Carry, C: Choosing>(&self, rule: &R, choosing: &C, late: &mut [u16])
        requires known { (a : ℕ) → a < length self.now.sheet.activities.now → C.knows choosing.now a }
        requires room { length self.now.sheet.events.now ≤ length late.old }
        ensures cells { (e : ℕ) → e < length self.now.sheet.events.now → slice_index late.new e ≡ least (yard_of (R.hands rule.now) self.now) (C.choice choosing.now) e }
        ensures kept { (e : ℕ) → length self.now.sheet.events.now ≤ e → slice_index late.new e ≡ slice_index late.old e }
    {
        // by number, since a cell is reckoned from those written before it
        for e in 0..self.sheet.events.len() {
            late[e] = self.lateness_at(rule, choosing, late, e);
        }
    }

    /// Writes the worst timetable: the least lateness when every unstruck transfer waits.
    pub fn write_worst<R: Carry>(&self, rule: &R, late: &mut [u16])
        requires room { length self.now.sheet.events.now ≤ length late.old }
        ensures cells { (e : ℕ) → e < length self.now.sheet.events.now → slice_index late.new e ≡ worst (yard_of (R.hands rule.now) self.now) e }
        ensures kept { (e : ℕ) → length self.now.sheet.events.now ≤ e → slice_index late.new e ≡ slice_index late.old e }
    {
        self.write_least(rule, &AllWait, late);
    }
}
