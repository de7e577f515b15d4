//! Numbers of minutes that a person writes: reading one, and refusing one that is too long.
ghost use Rattle.std.specs.Prelude.{◌≡◌, Some};
ghost use Rattle.std.specs.Option.{ok_or};
ghost use Rattle.std.specs.Result.{result_err};
ghost use Rattle.words.specs.Numbers.{number_of};
ghost use Rattle.desk.specs.Meanings.{argument_word, too_long};

use carry::rule::LONGEST;
use std::fmt;
use words::number::number;

/// A number that a rule is asked about; as a fault, the one that is no number from 0 to 1,440.
#[derive(Clone, Copy, Debug, PartialEq, Eq, Hash)]
pub enum Argument {
    Margin,
    Lateness,
    Allowance,
}

impl fmt::Display for Argument {
    ghost output = { λ argument. Some (argument_word argument) };

    fn fmt<W: fmt::Write>(&self, f: &mut fmt::Formatter<W>) -> fmt::Result {
        match *self {
            Argument::Margin => write!(f, "margin"),
            Argument::Lateness => write!(f, "lateness"),
            Argument::Allowance => write!(f, "allowance"),
        }
    }
}

/// The number of a word, a decimal of at most 65,535, or else the argument that it was to be.
pub fn minutes(word: &str, argument: Argument) -> Result<u16, Argument>
    ensures { result ≡ ok_or (number_of word.now) argument }
{
    number(word).ok_or(argument)
}

/// That neither number is longer than a day, or else the argument that is, the margin before the other one.
pub(crate) fn within_a_day(margin: u16, other: Argument, minutes: u16) -> Result<(), Argument>
    ensures { result_err result ≡ too_long margin other minutes }
{
    if margin > LONGEST {
        return Err(Argument::Margin);
    }
    if minutes > LONGEST {
        return Err(other);
    }
    Ok(())
}
