//! The sum of charges over all the lots of a sheet, for which there is always room.
ghost use Rattle.std.specs.Prelude.{◌≡◌, ◌≤◌};
ghost use Rattle.sheet.specs.Sheets.{tables_of};
ghost use Rattle.sums.specs.Totals.{Each, lots_total, sheet_bulk};

use crate::charge::Charge;
use crate::sum::sum_charges;
use sheet::sheet::Sheet;
use tariff::charges::Tariff;

/// What all the lots of a sheet pay.
pub fn sum_sheet<T: Tariff, C: Charge<T>>(tariff: &T, charge: &C, sheet: &Sheet) -> T::Toll
    requires { Each (C.can charge.now tariff.now) (tables_of sheet.now).lots }
    ensures answer { result ≡ lots_total (T.prices tariff.now).tolls (C.pays charge.now tariff.now) (tables_of sheet.now).lots }
    ensures light { (T.prices tariff.now).tolls.bulk result ≤ sheet_bulk }
{
    sum_charges(tariff, charge, sheet.lots)
}
