//! What the lots pay that a strike has parted from a connection.
ghost use Rattle.std.specs.Prelude.{◌≡◌, ℕ};
ghost use Rattle.timetable.specs.Days.{yard_of};
ghost use Rattle.bills.specs.Charges.{Chargeable};
ghost use Rattle.owed.specs.Owed.{struck_due, by_strikes};

use sheet::records::Lot;
use sums::charge::Charge;
use sums::sum::sum_charges;
use tariff::charges::Tariff;
use timetable::day::Day;

/// A lot with a struck transfer on its way pays for a missed connection, and a whole lot nothing.
#[derive(Clone, Copy)]
pub struct OverStruck<'a> {
    pub day: Day<'a>,
}

impl<T: Tariff> Charge<T> for OverStruck<'_> {
    ghost can = { λ way tariff lot. Chargeable way.day way.day.sheet.period lot };

    ghost pays = { λ way tariff lot. struck_due (T.Tariff.prices tariff) way.day lot };

    fn charge(&self, tariff: &T, lot: Lot) -> T::Toll {
        if self.day.is_unstruck(self.day.steps_of(lot)) {
            tariff.nought()
        } else {
            tariff.miss(lot.class, u32::from(lot.parcels), self.day.sheet.period)
        }
    }
}

/// What the lots with a struck transfer on their way pay.
pub fn struck_charges<T: Tariff>(tariff: &T, day: &Day) -> T::Toll
    ensures { (rule : ℕ → ℕ → ℕ) → result ≡ by_strikes (T.prices tariff.now) (yard_of rule day.now) }
{
    sum_charges(tariff, &OverStruck { day: *day }, day.sheet.lots)
}
