//! The tables that a caller lends for a sheet.
ghost use Rattle.std.specs.Prelude.{◌≡◌, Err, IfOk, IfErr};
ghost use Rattle.sheet.specs.Bytes.{bytes_of};
ghost use Rattle.sheet.specs.Sheets.{tables_of};
ghost use Rattle.sheet_read.specs.Sheets.{reading_of};
ghost use Rattle.sheet_read.specs.Lent.{room_of};

use crate::fault::SheetFault;
use crate::read::{Extent, read_sheet};
use sheet::records::{Activity, Event, Lot};
use sheet::sheet::Sheet;

/// The caller's tables, which a sheet is read into.
#[derive(Drop)]
pub struct LentTables<'t> {
    pub events: &'t mut [Event],
    pub activities: &'t mut [Activity],
    pub lots: &'t mut [Lot],
    pub steps: &'t mut [u16],
}

impl<'t> LentTables<'t> {
    /// The sheet that these bytes hold, read into these tables.
    pub fn read(mut self, bytes: &[u8]) -> Result<Sheet<'t>, SheetFault>
        ensures read { IfOk result (λ sheet. bytes_of (tables_of sheet) ≡ bytes.now) }
        ensures blames { IfErr result (λ fault. (reading_of (room_of self.entry) bytes.now).answer ≡ Err fault) }
    {
        let extent = read_sheet(bytes, &mut self)?;
        let LentTables {
            events,
            activities,
            lots,
            steps,
        } = self;
        Ok(Sheet::new(
            extent.period,
            &events[..extent.events],
            &activities[..extent.activities],
            &lots[..extent.lots],
            &steps[..extent.steps],
        ))
    }
}
