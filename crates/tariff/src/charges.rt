//! What a tariff is: a trait with its laws.
ghost use Rattle.std.specs.Prelude.{◌≡◌, ◌+◌, ◌≤◌};
ghost use Rattle.tariff.specs.Tolls.{cap};
ghost use Rattle.tariff.specs.Prices.{Prices, LawfulPrices};

use sheet::records::Class;

// A tariff sums and compares by its own calls, not by its toll's type: another tariff may order numbers the other way round.
/// Charges lots in a toll of its own kind. Its calls answer what its prices mean, and alter nothing.
pub trait Tariff {
    /// What is charged, summed and compared.
    type Toll: Copy;

    /// What the tariff means: its kind of toll and its two charges.
    ghost prices: { Self → Prices Self.Toll };

    /// The toll that adds nothing.
    fn nought(&self) -> Self::Toll
        ensures { result ≡ (prices self.now).tolls.nought };

    /// What a lot pays that ends so many minutes late.
    // the bound is a clause and no type of minutes: a type would ask callers to make one
    fn late(&self, class: Class, parcels: u32, minutes: u16) -> Self::Toll
        requires { minutes ≤ 1440 }
        ensures { result ≡ (prices self.now).late class parcels minutes };

    /// What a lot pays that misses a connection and loses so many minutes.
    fn miss(&self, class: Class, parcels: u32, minutes: u16) -> Self::Toll
        requires { minutes ≤ 1440 }
        ensures { result ≡ (prices self.now).miss class parcels minutes };

    /// The sum of two tolls that are not too bulky together.
    fn add(&self, a: Self::Toll, b: Self::Toll) -> Self::Toll
        requires { (prices self.now).tolls.bulk a + (prices self.now).tolls.bulk b ≤ cap }
        ensures { result ≡ (prices self.now).tolls.plus a b };

    /// Whether the first toll is at most the second.
    fn at_most(&self, a: Self::Toll, b: Self::Toll) -> bool
        ensures { result ≡ (prices self.now).tolls.at_most a b };

    ghost lawful: { (tariff : Self) → LawfulPrices (prices tariff) };
}
