//! The one loop that sums charges.
ghost use Rattle.std.specs.Prelude.{◌≡◌, ◌≤◌};
ghost use Rattle.tariff.specs.Tolls.{cap};
ghost use Rattle.sums.specs.Totals.{Each, lots_total, lots_weight};

use crate::charge::Charge;
use sheet::records::Lot;
use tariff::charges::Tariff;

/// The sum of what the lots pay, in any tariff's toll. The lots' weight has to be within what may be summed.
pub fn sum_charges<T: Tariff, C: Charge<T>>(tariff: &T, charge: &C, lots: &[Lot]) -> T::Toll
    requires able { Each (C.can charge.now tariff.now) lots.now }
    requires room { lots_weight lots.now ≤ cap }
    ensures answer { result ≡ lots_total (T.prices tariff.now).tolls (C.pays charge.now tariff.now) lots.now }
    ensures light { (T.prices tariff.now).tolls.bulk result ≤ lots_weight lots.now }
{
    let mut sum = tariff.nought();
    for lot in lots {
        let due = charge.charge(tariff, *lot);
        sum = tariff.add(sum, due);
    }
    sum
}
