//! Grace: a tariff with a parameter. The first minutes of a lateness are free.
ghost use Rattle.makers.specs.Graced.{by_grace};
ghost use Rattle.std.specs.Prelude.{◌≡◌, ◌-◌};
ghost use Rattle.std.proofs.Common.{mul-zero, arith};
ghost use Rattle.tariff.specs.Numbers.{numbers_lawful, due_rising, due_bulk};

use sheet::records::Class;
use tariff::charges::Tariff;
use tariff::parcel_minutes::parcel_minutes;

/// Charges parcels × the minutes past the free ones; a missed lot pays for every minute.
#[derive(Clone, Copy, PartialEq, Eq, Debug)]
pub struct Grace {
    pub free: u16,
}

impl Tariff for Grace {
    type Toll = u64;

    ghost prices = { λ tariff. by_grace tariff.free };

    ghost lawful = { λ tariff.
        record {
          tolls = numbers_lawful;
          punctual = λ c parcels. let none : 0 - tariff.free ≡ 0 = omega arith in rw none (mul-zero parcels);
          rising = λ c parcels less more h. due_rising parcels (less - tariff.free) (more - tariff.free) (omega arith);
          covers = λ c parcels lateness lost h. due_rising parcels (lateness - tariff.free) lost (omega arith);
          late_bulk = λ c parcels minutes h. due_bulk parcels (minutes - tariff.free) (omega arith);
          miss_bulk = λ c. due_bulk;
        } };

    fn nought(&self) -> u64 {
        0
    }

    fn late(&self, class: Class, parcels: u32, minutes: u16) -> u64 {
        parcel_minutes(parcels, minutes.saturating_sub(self.free))
    }

    fn miss(&self, class: Class, parcels: u32, minutes: u16) -> u64 {
        parcel_minutes(parcels, minutes)
    }

    fn add(&self, a: u64, b: u64) -> u64 {
        a + b
    }

    fn at_most(&self, a: u64, b: u64) -> bool {
        a <= b
    }
}
