//! Showing a sheet: its listing, or why it is refused.
ghost use Rattle.std.specs.Prelude.{IfOk, IfErr, string_bytes};
ghost use Rattle.sheet_read.specs.Sheets.{reading_of};
ghost use Rattle.sheet_read.specs.Lent.{room_of};
ghost use Rattle.desk.specs.Desk.{Shown, Blames};

use crate::fault::DeskFault;
use listing::show::listing;
use sheet_read::lent::LentTables;
use std::alloc::Global;

/// The listing of the sheet that these bytes hold, read into the tables that the caller lends.
pub fn show(heap: Global, bytes: &[u8], tables: LentTables<'_>) -> Result<String, DeskFault>
    ensures shown { IfOk result (λ text. Shown bytes.now (string_bytes text)) }
    ensures blames { IfErr result (Blames (reading_of (room_of tables.entry) bytes.now).answer) }
{
    let sheet = tables.read(bytes)?;
    let text = listing(heap, &sheet)?;
    Ok(text)
}
