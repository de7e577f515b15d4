//! What can be wrong with a listing, as a person is told of it.
ghost use Rattle.std.specs.Prelude.{◌≡◌};
ghost use Rattle.listing_read.specs.declared.fault.DraftFault.TheVariants.{Memory};

use std::alloc::{AllocError, AllocFailed};
use std::fmt;

/// Why a draft does not take a record.
#[derive(Clone, Copy, PartialEq, Eq, Debug)]
pub enum DraftFault {
    /// A section cannot count so many records.
    Records,
    /// A lot cannot count so many steps.
    Steps,
    Memory,
}

/// What is wrong with a line.
#[derive(Clone, Copy, Debug)]
pub enum Wrong<'a> {
    /// The line begins with a word that begins no line.
    NoLine(&'a str),
    /// The line has too few or too many words; it should read so.
    Words(&'static str),
    NoNumber(&'a str),
    NoSide(&'a str),
    NoClass(&'a str),
    Draft(DraftFault),
    NoText,
}

/// A line that cannot be read, counted from 1, and what is wrong with it.
#[derive(Clone, Copy, Debug)]
pub struct ListingFault<'a> {
    pub line: usize,
    pub wrong: Wrong<'a>,
}

impl From<AllocError> for DraftFault {
    ghost from_gives = { λ _ r. r ≡ Memory };

    fn from(_error: AllocError) -> DraftFault {
        DraftFault::Memory
    }
}

impl From<DraftFault> for Wrong<'_> {
    fn from(fault: DraftFault) -> Self {
        Wrong::Draft(fault)
    }
}

impl From<AllocError> for Wrong<'_> {
    fn from(_error: AllocError) -> Self {
        Wrong::Draft(DraftFault::Memory)
    }
}

impl<T: Drop> From<AllocFailed<T>> for Wrong<'_> {
    fn from(_refused: AllocFailed<T>) -> Self {
        Wrong::Draft(DraftFault::Memory)
    }
}

impl fmt::Display for DraftFault {
    fn fmt<W: fmt::Write>(&self, f: &mut fmt::Formatter<W>) -> fmt::Result {
        match *self {
            DraftFault::Records => write!(f, "more than 65535 lines of this kind"),
            DraftFault::Steps => write!(f, "more than 65535 steps"),
            DraftFault::Memory => write!(f, "out of memory"),
        }
    }
}

impl fmt::Display for Wrong<'_> {
    fn fmt<W: fmt::Write>(&self, f: &mut fmt::Formatter<W>) -> fmt::Result {
        match *self {
            Wrong::NoLine(word) => write!(f, "no line begins with '{word}'"),
            Wrong::Words(form) => write!(f, "too few or too many words: it should read '{form}'"),
            Wrong::NoNumber(word) => write!(f, "no number from 0 to 65535: '{word}'"),
            Wrong::NoSide(word) => write!(f, "neither 'arrival' nor 'departure': '{word}'"),
            Wrong::NoClass(word) => write!(f, "neither 'ordinary' nor 'express': '{word}'"),
            Wrong::Draft(fault) => write!(f, "{fault}"),
            Wrong::NoText => write!(f, "no UTF-8 text"),
        }
    }
}

impl fmt::Display for ListingFault<'_> {
    fn fmt<W: fmt::Write>(&self, f: &mut fmt::Formatter<W>) -> fmt::Result {
        let line = self.line;
        let wrong = self.wrong;
        write!(f, "line {line}: {wrong}")
    }
}
