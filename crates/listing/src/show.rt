//! A sheet's whole listing.
ghost use Rattle.std.specs.Prelude.{◌≡◌, ℕ, List, ◌++◌, All, Some, IfOk, string_bytes, OnOk};
ghost use Rattle.std.specs.List.{flat_map};
ghost use Rattle.sheet.specs.Sheets.{tables_of};
ghost use Rattle.listing.specs.Listing.{ended, listing_of};

use crate::lines::{ActivityLine, EventLine, LotLine, PeriodLine};
use sheet::sheet::Sheet;
use std::alloc::Global;
use std::fmt;

/// The listing of a sheet: the period, the events, the activities and the lots, each record on a line of its own.
pub fn listing(heap: Global, sheet: &Sheet) -> Result<String, fmt::Error>
    ensures { IfOk result (λ text. string_bytes text ≡ listing_of (tables_of sheet.now)) }
{
    let mut text = String::new(heap);
    text.writeln(PeriodLine(sheet.period))?;
    add_lines(&mut text, sheet.events, EventLine)?;
    add_lines(&mut text, sheet.activities, ActivityLine)?;
    add_lines(
        &mut text,
        sheet.lots,
        |lot| LotLine {
            class: lot.class,
            parcels: lot.parcels,
            steps: lot.stretch(sheet.steps),
        },
    )?;
    Ok(text)
}

/// Adds a line for each record of a table.
fn add_lines<R: Copy, L: fmt::Display + Drop, F: Fn(R) -> L>(
    text: &mut String,
    records: &[R],
    line: F,
) -> fmt::Result
    ghost shown: { R → List ℕ }
    requires can { All (λ r. F.pre line r) records.now }
    requires lines { (r : R) (l : L) → F.post line r l → L.output l ≡ Some (shown r) }
    ensures { OnOk result (string_bytes text.new ≡ string_bytes text.old ++ flat_map (λ r. ended (shown r)) records.now) }
{
    for record in records {
        text.writeln(line(*record))?;
    }
    Ok(())
}
