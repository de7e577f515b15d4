//! What a sheet's lots pay when all fare alike: every one so many minutes late, or every one missed.
ghost use Rattle.std.specs.Prelude.{◌≡◌, ◌≤◌};
ghost use Rattle.sheet.specs.Sheets.{tables_of};
ghost use Rattle.sums.specs.Alike.{late_charge, late_total, miss_charge, miss_total};

use crate::charge::Charge;
use crate::sheet_sum::sum_sheet;
use sheet::records::Lot;
use sheet::sheet::Sheet;
use tariff::charges::Tariff;

/// Each lot ends so many minutes late.
#[derive(Clone, Copy, PartialEq, Eq, Debug)]
pub struct LateBy {
    pub minutes: u16,
}

impl<T: Tariff> Charge<T> for LateBy {
    ghost can = { λ way tariff lot. way.minutes ≤ 1440 };

    ghost pays = { λ way tariff lot. late_charge (T.Tariff.prices tariff) way.minutes lot };

    fn charge(&self, tariff: &T, lot: Lot) -> T::Toll {
        tariff.late(lot.class, u32::from(lot.parcels), self.minutes)
    }
}

// A type of its own beside `LateBy`: they name different calls and prices, so a common type would need a trait or a switch for one line.
/// Each lot misses a connection and loses so many minutes.
#[derive(Clone, Copy, PartialEq, Eq, Debug)]
pub struct Missing {
    pub minutes: u16,
}

impl<T: Tariff> Charge<T> for Missing {
    ghost can = { λ way tariff lot. way.minutes ≤ 1440 };

    ghost pays = { λ way tariff lot. miss_charge (T.Tariff.prices tariff) way.minutes lot };

    fn charge(&self, tariff: &T, lot: Lot) -> T::Toll {
        tariff.miss(lot.class, u32::from(lot.parcels), self.minutes)
    }
}

/// The minutes that a missed connection costs: it runs again after the period.
pub fn lost_minutes(sheet: &Sheet) -> u16
    ensures answer { result ≡ sheet.now.period }
    ensures short { result ≤ 1440 }
{
    sheet.period
}

/// The toll of a sheet if every lot ended so many minutes late.
pub fn all_late<T: Tariff>(tariff: &T, sheet: &Sheet, minutes: u16) -> T::Toll
    requires { minutes ≤ 1440 }
    ensures { result ≡ late_total (T.prices tariff.now) minutes (tables_of sheet.now).lots }
{
    sum_sheet(tariff, &LateBy { minutes }, sheet)
}

/// The toll of a sheet if every lot missed a connection.
pub fn all_missed<T: Tariff>(tariff: &T, sheet: &Sheet) -> T::Toll
    ensures { result ≡ miss_total (T.prices tariff.now) sheet.now.period (tables_of sheet.now).lots }
{
    let minutes = lost_minutes(sheet);
    sum_sheet(tariff, &Missing { minutes }, sheet)
}
