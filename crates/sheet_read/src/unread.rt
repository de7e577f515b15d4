//! The byte reader: two leading bytes are one number, and the rest is handed on.
ghost use Rattle.std.specs.Prelude.{◌≡◌, length};
ghost use Rattle.sheet.specs.Laid.{laid};
ghost use Rattle.sheet_read.specs.Numbers.{Reads, GoesOn, number_of, numbers_run};
ghost use Rattle.sheet_read.specs.Sections.{spot_at};

use crate::fault::{ReaderFault, Section, Spot};

/// The bytes of a sheet that are not read yet, and how many the sheet has in all.
#[derive(Clone, Copy)]
pub(crate) struct Unread<'b> {
    pub total: usize,
    pub rest: &'b [u8],
}

impl<'b> Unread<'b> {
    /// A sheet of which nothing is read yet.
    pub fn all(bytes: &'b [u8]) -> Unread<'b>
        ensures total { result.total ≡ length bytes.now }
        ensures rest { result.rest.now ≡ bytes.now }
    {
        Unread {
            total: bytes.len(),
            rest: bytes,
        }
    }

    /// Where the unread bytes begin: the spot of a record that is read from there.
    pub fn spot(self, section: Section, record: u16) -> Spot
        ensures { result ≡ spot_at section «record» self.entry.total self.entry.rest.now }
    {
        Spot {
            section,
            record,
            place: self.total.saturating_sub(self.rest.len()),
        }
    }

    /// The number that the next two bytes give, high byte first.
    /// `at` is where the count, record or step begins that the number belongs to.
    pub fn number(self, at: Spot) -> Result<(u16, Unread<'b>), ReaderFault>
        ensures { Reads self.entry result (number_of at self.entry.rest.now) }
    {
        match self.rest {
            [high, low, rest @ ..] => {
                let number = u16::from_be_bytes([*high, *low]);
                Ok((number, Unread { rest, ..self }))
            }
            _ => Err(ReaderFault::Short(at)),
        }
    }

    /// Reads a number into each of `cells`.
    pub fn numbers(self, at: Spot, cells: &mut [u16]) -> Result<Unread<'b>, ReaderFault>
        ensures answer { GoesOn self.entry result (numbers_run (length cells.old) at self.entry.rest.now).1 }
        ensures cells { cells.new ≡ laid 0 (numbers_run (length cells.old) at self.entry.rest.now).0 cells.old }
    {
        let mut left = self;
        for cell in cells.iter_mut() {
            let (number, after) = left.number(at)?;
            *cell = number;
            left = after;
        }
        Ok(left)
    }
}
