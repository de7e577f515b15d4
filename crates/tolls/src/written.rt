//! The toll of a choice and a lateness that stand in tables.
ghost use Rattle.std.specs.Prelude.{◌≡◌, ℕ};
ghost use Rattle.model.specs.Laws.{cost};
ghost use Rattle.timetable.specs.Days.{yard_of};
ghost use Rattle.timetable.specs.Parts.{waits_by};
ghost use Rattle.tolls.specs.Written.{Written, Payable, pay_due, minutes_in};

use sheet::records::Lot;
use sums::charge::Charge;
use sums::sum::sum_charges;
use tariff::charges::Tariff;
use timetable::day::Day;
use timetable::day::steps::is_missed;

/// Each lot pays for a missed connection if an activity on its way goes, and otherwise for the lateness at its end.
#[derive(Clone, Copy)]
pub struct AsWritten<'a> {
    pub day: Day<'a>,
    pub late: &'a [u16],
    pub gone: &'a [u8],
}

impl<T: Tariff> Charge<T> for AsWritten<'_> {
    ghost can = { λ way tariff lot. Payable way.day way.late.now way.gone.now lot };

    ghost pays = { λ way tariff lot. pay_due (T.Tariff.prices tariff) way.day way.late.now way.gone.now lot };

    fn charge(&self, tariff: &T, lot: Lot) -> T::Toll {
        let steps = self.day.steps_of(lot);
        if is_missed(self.gone, steps) {
            tariff.miss(lot.class, u32::from(lot.parcels), self.day.sheet.period)
        } else {
            let minutes = self.late[self.day.end_of(steps)];
            tariff.late(lot.class, u32::from(lot.parcels), minutes)
        }
    }
}

/// What all lots pay for the choice in `gone` and the lateness in `late`.
// over plain slices, as a plan is
pub fn toll_of<'a, T: Tariff>(tariff: &T, day: &Day<'a>, late: &'a [u16], gone: &'a [u8]) -> T::Toll
    requires { Written day.now late.now gone.now }
    ensures { (rule : ℕ → ℕ → ℕ) → result ≡ cost (T.prices tariff.now) (yard_of rule day.now) (waits_by gone.now) (minutes_in late.now) }
{
    let way = AsWritten {
        day: *day,
        late,
        gone,
    };
    sum_charges(tariff, &way, day.sheet.lots)
}
