//! Packing a listing: the bytes of its sheet, or why there is none.
ghost use Rattle.std.specs.Prelude.{◌≡◌, IfOk, IfErr};
ghost use Rattle.sheet.specs.Bytes.{bytes_of};
ghost use Rattle.sheet.specs.Sheets.{tables_of};
ghost use Rattle.sheet_read.specs.Sheets.{reading_of};
ghost use Rattle.sheet_read.specs.Lent.{room_of};
ghost use Rattle.desk.specs.declared.fault.DeskFault.TheVariants.{Memory};
ghost use Rattle.desk.specs.Desk.{Packed, Blames, BlamesNoReport};

use crate::fault::DeskFault;
use listing_read::read::read_listing;
use sheet::sheet::Sheet;
use sheet_read::lent::LentTables;
use sheet_write::write::write_sheet;
use std::alloc::Global;

/// The bytes of the sheet that a listing says; it is read into the tables that the caller lends, and so keeps every rule.
pub fn pack(heap: Global, text: &[u8], tables: LentTables<'_>) -> Result<Vec<u8>, DeskFault>
    ensures packed { IfOk result (λ out. Packed out.items) }
    ensures blames { IfErr result BlamesNoReport }
{
    let draft = draft_bytes(heap, text)?;
    checked(heap, draft.as_slice(), tables)
}

/// The bytes that a listing's lines say, whether or not they are a sheet.
fn draft_bytes(heap: Global, text: &[u8]) -> Result<Vec<u8>, DeskFault>
    ensures { IfErr result BlamesNoReport }
{
    // not `map_err`: making the text of a fault may fail too
    match read_listing(heap, text) {
        Ok(draft) => Ok(draft.to_bytes(heap)?),
        Err(fault) => Err(DeskFault::Line(format!(in heap; "{fault}")?)),
    }
}

/// The sheet that these bytes hold, written anew, which gives the same bytes.
pub fn checked(heap: Global, bytes: &[u8], tables: LentTables<'_>) -> Result<Vec<u8>, DeskFault>
    ensures same { IfOk result (λ out. out.items ≡ bytes.now) }
    ensures packed { IfOk result (λ out. Packed out.items) }
    ensures blames { IfErr result (Blames (reading_of (room_of tables.entry) bytes.now).answer) }
{
    let sheet = tables.read(bytes)?;
    written(heap, &sheet, bytes.len())
}

/// The bytes of a sheet, for which there is so much room.
fn written(heap: Global, sheet: &Sheet, room: usize) -> Result<Vec<u8>, DeskFault>
    ensures whole { IfOk result (λ out. out.items ≡ bytes_of (tables_of sheet.now)) }
    ensures memory { IfErr result (λ e. e ≡ Memory) }
{
    let mut bytes = vec![in heap; 0u8; room]?;
    // not `map_err` and `?`: of the count a proof then knows too little
    match write_sheet(sheet, bytes.as_mut_slice()) {
        Ok(count) => {
            bytes.truncate(count);
            Ok(bytes)
        }
        Err(_) => Err(DeskFault::Memory),
    }
}
