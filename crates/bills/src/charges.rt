//! What the lots pay that end at an event, and those over a transfer.
ghost use Rattle.std.specs.Prelude.{◌≡◌, ℕ, ◌<◌, ◌≤◌, length, slice_index};
ghost use Rattle.timetable.specs.Days.{WorstIn, yard_of};
ghost use Rattle.bills.specs.Charges.{Chargeable, late_due, miss_due};
ghost use Rattle.bills.specs.Columns.{at_event, over_transfer};

use sheet::records::Lot;
use sums::charge::Charge;
use sums::sum::sum_charges;
use tariff::charges::Tariff;
use timetable::day::Day;
use timetable::day::steps::is_over;

/// A whole lot that ends at the event pays for so many minutes, and any other lot nothing.
#[derive(Clone, Copy)]
pub struct LateAt<'a> {
    pub day: Day<'a>,
    pub event: usize,
    pub minutes: u16,
}

impl<T: Tariff> Charge<T> for LateAt<'_> {
    ghost can = { λ way tariff lot. Chargeable way.day way.minutes lot };

    ghost pays = { λ way tariff lot. late_due (T.Tariff.prices tariff) way.day way.event way.minutes lot };

    fn charge(&self, tariff: &T, lot: Lot) -> T::Toll {
        let steps = self.day.steps_of(lot);
        if self.day.end_of(steps) == self.event && self.day.is_unstruck(steps) {
            tariff.late(lot.class, u32::from(lot.parcels), self.minutes)
        } else {
            tariff.nought()
        }
    }
}

/// A whole lot over the transfer pays for a missed connection, and any other lot nothing.
#[derive(Clone, Copy)]
pub struct MissOver<'a> {
    pub day: Day<'a>,
    pub transfer: usize,
}

impl<T: Tariff> Charge<T> for MissOver<'_> {
    ghost can = { λ way tariff lot. Chargeable way.day way.day.sheet.period lot };

    ghost pays = { λ way tariff lot. miss_due (T.Tariff.prices tariff) way.day way.transfer lot };

    fn charge(&self, tariff: &T, lot: Lot) -> T::Toll {
        let steps = self.day.steps_of(lot);
        if is_over(steps, self.transfer) && self.day.is_unstruck(steps) {
            tariff.miss(lot.class, u32::from(lot.parcels), self.day.sheet.period)
        } else {
            tariff.nought()
        }
    }
}

/// What the whole lots that end at event `e` pay there, where `late` holds the worst timetable.
pub fn late_lots<T: Tariff>(tariff: &T, day: &Day, late: &[u16], e: usize) -> T::Toll
    requires within { e < length day.now.sheet.events.now }
    requires short { (e < length late.now) × (slice_index late.now e ≤ 1440) }
    ensures { (rule : ℕ → ℕ → ℕ) → WorstIn rule day.now late.now → result ≡ at_event (T.prices tariff.now) (yard_of rule day.now) e }
{
    let way = LateAt {
        day: *day,
        event: e,
        minutes: late[e],
    };
    sum_charges(tariff, &way, day.sheet.lots)
}

/// The miss bill of transfer `a`: what the whole lots over it pay if it goes.
pub fn miss_bill<T: Tariff>(tariff: &T, day: &Day, a: usize) -> T::Toll
    ensures { (rule : ℕ → ℕ → ℕ) → result ≡ over_transfer (T.prices tariff.now) (yard_of rule day.now) a }
{
    let way = MissOver {
        day: *day,
        transfer: a,
    };
    sum_charges(tariff, &way, day.sheet.lots)
}
