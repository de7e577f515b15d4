//! The tariffs by name.
ghost use Rattle.std.specs.Prelude.{◌≡◌};
ghost use Rattle.std.specs.Result.{result_ok};
ghost use Rattle.console.specs.Tariffs.{tariff_of};

use std::str::FromStr;

/// The tariffs that a person can name.
#[derive(Clone, Copy, Debug, PartialEq, Eq, Hash)]
pub enum TariffName {
    ParcelMinutes,
    Ranked,
}

/// No tariff has this name.
#[derive(Clone, Copy, Debug, PartialEq, Eq, Hash)]
pub struct NoSuchTariff;

// std's trait, implemented for each kind of name by itself
impl FromStr for TariffName {
    type Err = NoSuchTariff;

    ghost from_str_gives = { λ name answer. result_ok answer ≡ tariff_of name };

    fn from_str(name: &str) -> Result<TariffName, NoSuchTariff> {
        match name {
            "parcel-minutes" => Ok(TariffName::ParcelMinutes),
            "ranked" => Ok(TariffName::Ranked),
            _ => Err(NoSuchTariff),
        }
    }
}
