//! Ranked: express parcel-minutes count first, and ordinary ones only between equals.
ghost use Rattle.std.specs.Prelude.{◌≡◌, Some};
ghost use Rattle.tariff.specs.Ranks.{in_class, by_rank, as_pair};
ghost use Rattle.tariff.specs.Pairs.{ranked_lawful, rank_none, rank_rising, rank_bulk};

use crate::charges::Tariff;
use crate::parcel_minutes::parcel_minutes;
use sheet::records::Class;
use std::fmt;

/// Charges parcels × minutes to the class of the lot.
#[derive(Clone, Copy, PartialEq, Eq, Debug)]
pub struct Ranked;

/// Parcel-minutes by class, ordered by the express ones first.
#[derive(Clone, Copy, PartialEq, Eq, PartialOrd, Ord, Default, Debug)]
pub struct RankedToll {
    pub express: u64,
    pub ordinary: u64,
}

/// The toll of so many parcel-minutes of one class.
fn of_class(class: Class, amount: u64) -> RankedToll
    ensures { result ≡ in_class class amount }
{
    match class {
        Class::Express => RankedToll {
            express: amount,
            ordinary: 0,
        },
        Class::Ordinary => RankedToll {
            express: 0,
            ordinary: amount,
        },
    }
}

impl Tariff for Ranked {
    type Toll = RankedToll;

    ghost prices = { λ tariff. by_rank };

    ghost lawful = { λ tariff.
        record {
          tolls = ranked_lawful;
          punctual = rank_none;
          rising = rank_rising;
          covers = rank_rising;
          late_bulk = rank_bulk;
          miss_bulk = rank_bulk;
        } };

    fn nought(&self) -> RankedToll {
        RankedToll::default()
    }

    fn late(&self, class: Class, parcels: u32, minutes: u16) -> RankedToll {
        of_class(class, parcel_minutes(parcels, minutes))
    }

    fn miss(&self, class: Class, parcels: u32, minutes: u16) -> RankedToll {
        self.late(class, parcels, minutes)
    }

    fn add(&self, a: RankedToll, b: RankedToll) -> RankedToll {
        RankedToll {
            express: a.express + b.express,
            ordinary: a.ordinary + b.ordinary,
        }
    }

    fn at_most(&self, a: RankedToll, b: RankedToll) -> bool {
        a <= b
    }
}

impl fmt::Display for RankedToll {
    ghost output = { λ toll. Some (as_pair toll) };

    fn fmt<W: fmt::Write>(&self, f: &mut fmt::Formatter<W>) -> fmt::Result {
        write!(f, "({}, {})", self.express, self.ordinary)
    }
}
