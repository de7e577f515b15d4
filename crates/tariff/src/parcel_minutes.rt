//! Parcel-minutes: each parcel counts the minutes that it is late.
ghost use Rattle.std.specs.Prelude.{◌≡◌, ◌*◌};
ghost use Rattle.tariff.specs.Minutes.{by_minutes};
ghost use Rattle.std.proofs.Common.{mul-zero};
ghost use Rattle.tariff.specs.Numbers.{numbers_lawful, due_rising, due_bulk};

use crate::charges::Tariff;
use sheet::records::Class;

/// Charges parcels × minutes, whatever the class.
#[derive(Clone, Copy, PartialEq, Eq, Debug)]
pub struct ParcelMinutes;

/// Parcels × minutes.
pub fn parcel_minutes(parcels: u32, minutes: u16) -> u64
    ensures { result ≡ parcels * minutes }
{
    u64::from(parcels) * u64::from(minutes)
}

impl Tariff for ParcelMinutes {
    type Toll = u64;

    ghost prices = { λ tariff. by_minutes };

    ghost lawful = { λ tariff.
        record {
          tolls = numbers_lawful;
          punctual = λ c. mul-zero;
          rising = λ c. due_rising;
          covers = λ c. due_rising;
          late_bulk = λ c. due_bulk;
          miss_bulk = λ c. due_bulk;
        } };

    fn nought(&self) -> u64 {
        0
    }

    fn late(&self, class: Class, parcels: u32, minutes: u16) -> u64 {
        parcel_minutes(parcels, minutes)
    }

    fn miss(&self, class: Class, parcels: u32, minutes: u16) -> u64 {
        self.late(class, parcels, minutes)
    }

    fn add(&self, a: u64, b: u64) -> u64 {
        a + b
    }

    fn at_most(&self, a: u64, b: u64) -> bool {
        a <= b
    }
}
