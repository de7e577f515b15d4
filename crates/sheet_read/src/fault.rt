//! Why a sheet is refused: the byte reader's fault, in the record's, in the sheet's, each with the spot where what is at fault begins.
ghost use Rattle.std.specs.Prelude.{◌≡◌, Some, decimal};
ghost use Rattle.sheet_read.specs.declared.fault.RecordFault.TheVariants.{Reader};
ghost use Rattle.sheet_read.specs.declared.fault.SheetFault.TheVariants.{Count, Record};
ghost use Rattle.sheet_read.specs.Faults.{refusal_of, refusal_text, section_number, rule_number};

use std::fmt;

/// The four sections of a sheet, in reading order.
#[derive(Clone, Copy, PartialEq, Eq, Debug)]
pub enum Section {
    Terms,
    Events,
    Activities,
    Lots,
}

/// Where something begins that is read as a whole: a count (as record 0), a record, a lot's step, or bytes left over.
#[derive(Clone, Copy, PartialEq, Eq, Debug)]
pub struct Spot {
    pub section: Section,
    pub record: u16,
    /// The byte, counted from 0, at which it begins.
    pub place: usize,
}

/// Why no number can be read.
#[derive(Clone, Copy, PartialEq, Eq, Debug)]
pub enum ReaderFault {
    /// Fewer than two bytes are left.
    Short(Spot),
}

/// Why no record can be read.
#[derive(Clone, Copy, PartialEq, Eq, Debug)]
pub enum RecordFault {
    /// The byte reader's fault.
    Reader(ReaderFault),
    /// The record or step breaks its rule.
    Rule(Spot),
}

impl From<ReaderFault> for RecordFault {
    ghost from_gives = { λ x y. y ≡ Reader x };

    fn from(fault: ReaderFault) -> RecordFault {
        RecordFault::Reader(fault)
    }
}

/// Why no sheet can be read.
#[derive(Clone, Copy, PartialEq, Eq, Debug)]
pub enum SheetFault {
    /// The byte reader's fault at a section's count.
    Count(ReaderFault),
    /// A record's fault.
    Record(RecordFault),
    /// A count, or the lots' steps all together, are out of bounds.
    Bounds(Spot),
    /// The caller's table is too short.
    Table(Spot),
    /// Bytes are left over after the last lot.
    Leftover(Spot),
}

impl From<ReaderFault> for SheetFault {
    ghost from_gives = { λ x y. y ≡ Count x };

    fn from(fault: ReaderFault) -> SheetFault {
        SheetFault::Count(fault)
    }
}

impl From<RecordFault> for SheetFault {
    ghost from_gives = { λ x y. y ≡ Record x };

    fn from(fault: RecordFault) -> SheetFault {
        SheetFault::Record(fault)
    }
}

/// What is told of a fault: its number, the section, the record, and the byte.
#[derive(Clone, Copy, PartialEq, Eq, Debug)]
pub struct Refusal {
    // The kind is `SheetFault`; its number here is the one that people and tools read (docs/REFUSALS.md).
    pub number: u8,
    pub section: Section,
    pub record: u16,
    pub place: usize,
}

impl From<Section> for u8 {
    ghost from_gives = { λ section number. number ≡ section_number section };

    fn from(section: Section) -> u8 {
        match section {
            Section::Terms => 1,
            Section::Events => 2,
            Section::Activities => 3,
            Section::Lots => 4,
        }
    }
}

/// A section is told by its number.
impl fmt::Display for Section {
    ghost output = { λ section. Some (decimal (section_number section)) };

    fn fmt<W: fmt::Write>(&self, f: &mut fmt::Formatter<W>) -> fmt::Result {
        let number = u8::from(*self);
        write!(f, "{number}")
    }
}

impl Section {
    /// The number of the refusal where a record of the section breaks its rule.
    fn rule_number(self) -> u8
        ensures { result ≡ rule_number self }
    {
        match self {
            Section::Terms => 3,
            Section::Events => 4,
            Section::Activities => 5,
            Section::Lots => 6,
        }
    }
}

impl SheetFault {
    /// The refusal that the fault is told as.
    pub fn refusal(self) -> Refusal
        ensures { result ≡ refusal_of self }
    {
        let (number, at) = match self {
            SheetFault::Count(ReaderFault::Short(at)) => (1, at),
            SheetFault::Record(RecordFault::Reader(ReaderFault::Short(at))) => (1, at),
            SheetFault::Record(RecordFault::Rule(at)) => (at.section.rule_number(), at),
            SheetFault::Bounds(at) => (2, at),
            SheetFault::Leftover(at) => (7, at),
            SheetFault::Table(at) => (8, at),
        };
        Refusal {
            number,
            section: at.section,
            record: at.record,
            place: at.place,
        }
    }
}

impl fmt::Display for Refusal {
    ghost output = { λ r. Some (refusal_text r) };

    fn fmt<W: fmt::Write>(&self, f: &mut fmt::Formatter<W>) -> fmt::Result {
        write!(
            f,
            "refused {} section {} record {} byte {}",
            self.number, self.section, self.record, self.place
        )
    }
}

impl fmt::Display for SheetFault {
    ghost output = { λ fault. Some (refusal_text (refusal_of fault)) };

    fn fmt<W: fmt::Write>(&self, f: &mut fmt::Formatter<W>) -> fmt::Result {
        write!(f, "{}", self.refusal())
    }
}
