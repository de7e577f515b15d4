//! A way of charging lots: what each one pays under a tariff.
ghost use Rattle.std.specs.Prelude.{◌≡◌, ◌≤◌};
ghost use Rattle.sheet.specs.declared.records.Lot.{Lot};
ghost use Rattle.sums.specs.Totals.{lot_weight};

use sheet::records::Lot;
use tariff::charges::Tariff;

/// Says what a lot pays, which is never bulkier than the lot's weight.
pub trait Charge<T: Tariff> {
    /// What has to hold of a lot for it to be charged.
    ghost can: { Self → T → Lot → Type 0 };

    /// What the lot pays.
    ghost pays: { Self → T → Lot → T.Toll };

    /// Answers what the lot pays.
    fn charge(&self, tariff: &T, lot: Lot) -> T::Toll
        requires { can self.now tariff.now lot }
        ensures answer { result ≡ pays self.now tariff.now lot }
        ensures light { (T.Tariff.prices tariff.now).tolls.bulk result ≤ lot_weight lot };
}
