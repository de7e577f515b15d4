//! A buffer that numbers are put into, one after another.
ghost use Rattle.std.specs.Prelude.{◌≡◌, ◌+◌, ◌<◌, ◌≤◌, length};
ghost use Rattle.std.specs.List.{flat_map, AllByRecursion};
ghost use Rattle.sheet.specs.Bytes.{number_bytes, lot_bytes, section_bytes};
ghost use Rattle.sheet.specs.Rules.{Within};
ghost use Rattle.sheet_write.specs.Pages.{Puts};

use sheet::records::{Lot, Numbered};

/// A buffer that is filled from its front on.
// the caller's buffer is lent whole, since the bytes past the sheet stay: so the place stands beside it
#[derive(Drop)]
pub(crate) struct Page<'a> {
    cells: &'a mut [u8],
    /// Where the next byte goes.
    at: usize,
}

impl<'a> Page<'a> {
    pub(crate) fn new(cells: &'a mut [u8]) -> Page<'a>
        ensures same { result.cells.ghost_name ≡ cells.entry.ghost_name }
        ensures front { result.at ≡ 0 }
        ensures kept { result.cells.now ≡ cells.old }
    {
        Page { cells, at: 0 }
    }

    /// Puts a number, high byte first.
    pub(crate) fn put_number(&mut self, number: u16)
        requires { self.old.at + 2 ≤ length self.old.cells.now }
        ensures { Puts self.old (number_bytes number) self.new }
    {
        let [high, low] = number.to_be_bytes();
        self.cells[self.at] = high;
        self.cells[self.at + 1] = low;
        self.at += 2;
    }

    /// Puts numbers, one after another.
    pub(crate) fn put_numbers(&mut self, numbers: &[u16])
        requires { self.old.at + length (flat_map number_bytes numbers.now) ≤ length self.old.cells.now }
        ensures { Puts self.old (flat_map number_bytes numbers.now) self.new }
    {
        for number in numbers {
            self.put_number(*number);
        }
    }

    /// Puts a section: how many records there are, then the numbers of each.
    pub(crate) fn put_section<R: Numbered>(&mut self, records: &[R])
        requires few { length records.now < 65536 }
        requires room { self.old.at + length (section_bytes (λ r. flat_map number_bytes (R.numbers r)) records.now) ≤ length self.old.cells.now }
        ensures { Puts self.old (section_bytes (λ r. flat_map number_bytes (R.numbers r)) records.now) self.new }
    {
        // a count of 16 bits, so `as` is proved to lose none
        self.put_number(records.len() as u16);
        for record in records {
            self.put_numbers(&record.numbers());
        }
    }

    /// Puts the section of the lots: how many there are, then each with its own steps.
    pub(crate) fn put_lots(&mut self, lots: &[Lot], steps: &[u16])
        requires few { length lots.now < 65536 }
        requires within { AllByRecursion (Within steps.now) lots.now }
        requires room { self.old.at + length (section_bytes (lot_bytes steps.now) lots.now) ≤ length self.old.cells.now }
        ensures { Puts self.old (section_bytes (lot_bytes steps.now) lots.now) self.new }
    {
        // a count of 16 bits, so `as` is proved to lose none
        self.put_number(lots.len() as u16);
        // No `put_section`: a lot's bytes need the step table too, and are of no fixed number.
        for lot in lots {
            self.put_lot(*lot, steps);
        }
    }

    /// Puts a lot: its three numbers, then its steps.
    fn put_lot(&mut self, lot: Lot, steps: &[u16])
        requires within { Within steps.now lot }
        requires room { self.old.at + length (lot_bytes steps.now lot) ≤ length self.old.cells.now }
        ensures { Puts self.old (lot_bytes steps.now lot) self.new }
    {
        self.put_numbers(&[lot.class.into(), lot.parcels, lot.count]);
        self.put_numbers(lot.stretch(steps));
    }
}
