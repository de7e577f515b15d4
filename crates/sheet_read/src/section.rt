//! A section of a sheet: its count, then its records, which fill the front of a table.
ghost use Rattle.std.specs.Prelude.{◌≡◌, ◌≤◌, length};
ghost use Rattle.sheet.specs.Laid.{laid};
ghost use Rattle.sheet.specs.Rules.{between};
ghost use Rattle.sheet_read.specs.Numbers.{Reads, GoesOn};
ghost use Rattle.sheet_read.specs.Records.{record_of};
ghost use Rattle.sheet_read.specs.Sections.{fewest, most, count_of, records_of, section_of};

use crate::fault::{RecordFault, Section, SheetFault};
use crate::record::{RecordRule, read_record};
use crate::unread::Unread;

impl Section {
    /// Whether the section may have so many records.
    fn allows(self, count: u16) -> bool
        ensures { result ≡ between (fewest self) (most self) count }
    {
        match self {
            Section::Terms => count == 1,
            Section::Events => (1..=512).contains(&count),
            Section::Activities => count <= 1024,
            Section::Lots => count <= 512,
        }
    }
}

/// Reads a section's count, for a table of `cells` cells.
pub(crate) fn read_count<'b>(
    unread: Unread<'b>,
    section: Section,
    cells: usize,
) -> Result<(u16, Unread<'b>), SheetFault>
    ensures { Reads unread.entry result (count_of section unread.entry.total cells unread.entry.rest.now) }
{
    let at = unread.spot(section, 0);
    let (count, rest) = unread.number(at)?;
    if !section.allows(count) {
        return Err(SheetFault::Bounds(at));
    }
    if usize::from(count) > cells {
        return Err(SheetFault::Table(at));
    }
    Ok((count, rest))
}

/// Reads `count` records into the front of `table`.
pub(crate) fn read_records<'b, const N: usize, R: RecordRule<N>>(
    rule: &R,
    section: Section,
    count: u16,
    unread: Unread<'b>,
    table: &mut [R::Record],
) -> Result<Unread<'b>, RecordFault>
    requires { count ≤ length table.old }
    ensures answer { GoesOn unread.entry result (records_of (record_of (R.makes rule.now) N) section unread.entry.total 0 count unread.entry.rest.now).1 }
    ensures cells { table.new ≡ laid 0 (records_of (record_of (R.makes rule.now) N) section unread.entry.total 0 count unread.entry.rest.now).0 table.old }
{
    let mut left = unread;
    // by number, which the record's spot has too
    for i in 0..count {
        let (item, after) = read_record(rule, left, left.spot(section, i))?;
        table[usize::from(i)] = item;
        left = after;
    }
    Ok(left)
}

/// Reads a section whose records fill the front of `table`, and says how many there are.
pub(crate) fn read_section<'b, const N: usize, R: RecordRule<N>>(
    rule: &R,
    section: Section,
    unread: Unread<'b>,
    table: &mut [R::Record],
) -> Result<(u16, Unread<'b>), SheetFault>
    ensures answer { Reads unread.entry result (section_of (record_of (R.makes rule.now) N) section unread.entry.total (length table.old) unread.entry.rest.now).1 }
    ensures cells { table.new ≡ laid 0 (section_of (record_of (R.makes rule.now) N) section unread.entry.total (length table.old) unread.entry.rest.now).0 table.old }
{
    let (count, rest) = read_count(unread, section, table.len())?;
    let rest = read_records(rule, section, count, rest, table)?;
    Ok((count, rest))
}
