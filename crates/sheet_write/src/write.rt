//! Writing a whole sheet into a buffer.
ghost use Rattle.std.specs.Prelude.{◌≡◌, ◌≤◌, length, take, is_ok, IfOk, if◌then◌else◌};
ghost use Rattle.sheet.specs.Bytes.{bytes_of};
ghost use Rattle.sheet.specs.Laid.{laid};
ghost use Rattle.sheet.specs.Sheets.{tables_of};
ghost use Rattle.sheet_write.specs.Writing.{ReadsBack, written_of, write_number};

use crate::page::Page;
use sheet::sheet::Sheet;

/// Why a sheet is not written.
#[derive(Clone, Copy, PartialEq, Eq, Debug)]
pub enum WriteFault {
    /// The buffer is too short for the `needed` bytes.
    Short { needed: usize },
}

impl WriteFault {
    /// The number of the refusal.
    pub fn number(self) -> u8
        ensures { result ≡ write_number self }
    {
        match self {
            WriteFault::Short { .. } => 8,
        }
    }
}

/// How many bytes a sheet has.
fn size_of(sheet: &Sheet) -> usize
    ensures { result ≡ length (bytes_of (tables_of sheet.now)) }
{
    10 + 8 * (sheet.events.len() + sheet.activities.len())
        + 6 * sheet.lots.len()
        + 2 * sheet.steps.len()
}

/// Fills the front of `out` with a sheet's four sections.
fn fill(sheet: &Sheet, out: &mut [u8])
    requires { length (bytes_of (tables_of sheet.now)) ≤ length out.old }
    ensures { out.new ≡ laid 0 (bytes_of (tables_of sheet.now)) out.old }
{
    let mut page = Page::new(out);
    // The terms are one record, the period.
    page.put_numbers(&[1, sheet.period]);
    page.put_section(sheet.events);
    page.put_section(sheet.activities);
    page.put_lots(sheet.lots, sheet.steps);
}

/// Writes a sheet into the front of `out`; answers how many bytes it has.
/// A buffer that is too short is refused and left as it was. What is written reads back as the sheet.
pub fn write_sheet(sheet: &Sheet, out: &mut [u8]) -> Result<usize, WriteFault>
    ensures answer { result ≡ written_of (tables_of sheet.now) (length out.old) }
    ensures bytes { out.new ≡ (if is_ok result then laid 0 (bytes_of (tables_of sheet.now)) out.old else out.old) }
    ensures read_back { IfOk result (λ n. ReadsBack (tables_of sheet.now) (take n out.new)) }
{
    let needed = size_of(sheet);
    if out.len() < needed {
        return Err(WriteFault::Short { needed });
    }
    fill(sheet, out);
    Ok(needed)
}
