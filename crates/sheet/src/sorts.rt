//! How a side, a kind and a class are written: as a number in a sheet's bytes, as a word in lines of text.
ghost use Rattle.std.specs.Prelude.{◌≡◌, Some, codes};
ghost use Rattle.std.specs.Result.{result_ok};
ghost use Rattle.sheet.specs.Bytes.{side_number, kind_number, class_number};
ghost use Rattle.sheet.specs.Sorts.{side_of, kind_of, class_of, side_word, kind_word, class_word, side_called, kind_called, class_called};

use crate::records::{Class, Kind, Side};
use std::error::Error;
use std::fmt;
use std::str::FromStr;

/// A number or a word that stands for no side, kind or class, whichever it was read as.
#[derive(Clone, Copy, PartialEq, Eq, Debug)]
pub struct UnknownSort;

impl fmt::Display for UnknownSort {
    ghost output = { λ _. Some (codes "no such side, kind or class") };

    fn fmt<W: fmt::Write>(&self, f: &mut fmt::Formatter<W>) -> fmt::Result {
        f.write_str("no such side, kind or class")
    }
}

impl Error for UnknownSort {}

// one impl for each type: they are std's traits, and what each type is called and numbered is its own
impl From<Side> for u16 {
    ghost from_gives = { λ side number. number ≡ side_number side };

    fn from(side: Side) -> u16 {
        match side {
            Side::Arrival => 0,
            Side::Departure => 1,
        }
    }
}

impl TryFrom<u16> for Side {
    type Error = UnknownSort;

    ghost try_from_gives = { λ number r. result_ok r ≡ side_of number };

    fn try_from(number: u16) -> Result<Side, UnknownSort> {
        match number {
            0 => Ok(Side::Arrival),
            1 => Ok(Side::Departure),
            _ => Err(UnknownSort),
        }
    }
}

impl fmt::Display for Side {
    ghost output = { λ side. Some (side_word side) };

    fn fmt<W: fmt::Write>(&self, f: &mut fmt::Formatter<W>) -> fmt::Result {
        f.write_str(match self {
            Side::Arrival => "arrival",
            Side::Departure => "departure",
        })
    }
}

impl FromStr for Side {
    type Err = UnknownSort;

    ghost from_str_gives = { λ word r. result_ok r ≡ side_called word };

    fn from_str(word: &str) -> Result<Side, UnknownSort> {
        match word {
            "arrival" => Ok(Side::Arrival),
            "departure" => Ok(Side::Departure),
            _ => Err(UnknownSort),
        }
    }
}

impl From<Kind> for u16 {
    ghost from_gives = { λ kind number. number ≡ kind_number kind };

    fn from(kind: Kind) -> u16 {
        match kind {
            Kind::Drive => 0,
            Kind::Stand => 1,
            Kind::Transfer => 2,
        }
    }
}

impl TryFrom<u16> for Kind {
    type Error = UnknownSort;

    ghost try_from_gives = { λ number r. result_ok r ≡ kind_of number };

    fn try_from(number: u16) -> Result<Kind, UnknownSort> {
        match number {
            0 => Ok(Kind::Drive),
            1 => Ok(Kind::Stand),
            2 => Ok(Kind::Transfer),
            _ => Err(UnknownSort),
        }
    }
}

impl fmt::Display for Kind {
    ghost output = { λ kind. Some (kind_word kind) };

    fn fmt<W: fmt::Write>(&self, f: &mut fmt::Formatter<W>) -> fmt::Result {
        f.write_str(match self {
            Kind::Drive => "drive",
            Kind::Stand => "stand",
            Kind::Transfer => "transfer",
        })
    }
}

impl FromStr for Kind {
    type Err = UnknownSort;

    ghost from_str_gives = { λ word r. result_ok r ≡ kind_called word };

    fn from_str(word: &str) -> Result<Kind, UnknownSort> {
        match word {
            "drive" => Ok(Kind::Drive),
            "stand" => Ok(Kind::Stand),
            "transfer" => Ok(Kind::Transfer),
            _ => Err(UnknownSort),
        }
    }
}

impl From<Class> for u16 {
    ghost from_gives = { λ class number. number ≡ class_number class };

    fn from(class: Class) -> u16 {
        match class {
            Class::Ordinary => 0,
            Class::Express => 1,
        }
    }
}

impl TryFrom<u16> for Class {
    type Error = UnknownSort;

    ghost try_from_gives = { λ number r. result_ok r ≡ class_of number };

    fn try_from(number: u16) -> Result<Class, UnknownSort> {
        match number {
            0 => Ok(Class::Ordinary),
            1 => Ok(Class::Express),
            _ => Err(UnknownSort),
        }
    }
}

impl fmt::Display for Class {
    ghost output = { λ class. Some (class_word class) };

    fn fmt<W: fmt::Write>(&self, f: &mut fmt::Formatter<W>) -> fmt::Result {
        f.write_str(match self {
            Class::Ordinary => "ordinary",
            Class::Express => "express",
        })
    }
}

impl FromStr for Class {
    type Err = UnknownSort;

    ghost from_str_gives = { λ word r. result_ok r ≡ class_called word };

    fn from_str(word: &str) -> Result<Class, UnknownSort> {
        match word {
            "ordinary" => Ok(Class::Ordinary),
            "express" => Ok(Class::Express),
            _ => Err(UnknownSort),
        }
    }
}
