//! The reserve of each event, from the last one down.
ghost use Rattle.std.specs.Prelude.{◌≡◌, ℕ, ◌<◌, ◌≤◌, length, slice_index};
ghost use Rattle.model.specs.Reserves.{reserve};
ghost use Rattle.timetable.specs.Days.{yard_of};
ghost use Rattle.reserves.specs.Leaving.{ReservedAfter};

use carry::rule::Measured;
use timetable::day::Day;

/// The reserve of event `e`, where `reserves` has those of the events after it: the least of its tolerance and of what
/// remains by each activity that leaves it and is no struck transfer.
fn reserve_at<R: Measured>(rule: &R, day: &Day, reserves: &[u16], e: usize) -> u16
    requires within { e < length day.now.sheet.events.now }
    requires after { ReservedAfter (R.hands rule.now) day.now e reserves.now }
    ensures { result ≡ reserve (yard_of (R.hands rule.now) day.now) e }
{
    let mut least = day.sheet.events[e].tolerance;
    // a loop and no chain: its closures would index a table, and each would have to be shown that a head comes after
    for (a, activity) in day.sheet.activities.iter().enumerate() {
        if usize::from(activity.tail) == e && !day.is_struck(a) {
            let allowance = reserves[usize::from(activity.head)];
            least = least.min(rule.remains(activity.margin, allowance));
        }
    }
    least
}

/// Writes into each event's cell its reserve, the greatest delay that it alone may have; further cells keep their contents.
pub fn write_reserves<R: Measured>(rule: &R, day: &Day, reserves: &mut [u16])
    requires { length day.now.sheet.events.now ≤ length reserves.old }
    ensures cells { (e : ℕ) → e < length day.now.sheet.events.now → slice_index reserves.new e ≡ reserve (yard_of (R.hands rule.now) day.now) e }
    ensures kept { (e : ℕ) → length day.now.sheet.events.now ≤ e → slice_index reserves.new e ≡ slice_index reserves.old e }
{
    // by number and from the last one down, since an activity leads to a later event, whose cell has to be there first
    for e in (0..day.sheet.events.len()).rev() {
        reserves[e] = reserve_at(rule, day, reserves, e);
    }
}
