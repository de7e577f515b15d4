//! Tables with room for the largest sheet.
ghost use Rattle.std.specs.Prelude.{◌≡◌, IfOk, IfErr, Err, vec_len};
ghost use Rattle.sheet.specs.Bytes.{bytes_of};
ghost use Rattle.sheet.specs.Sheets.{tables_of};
ghost use Rattle.sheet_read.specs.Sheets.{room_in, reading_of};

use sheet::records::{Activity, Class, Event, Kind, Lot, Side};
use sheet::sheet::Sheet;
use sheet_read::fault::SheetFault;
use sheet_read::lent::LentTables;
use std::alloc::{AllocError, Global};

/// The tables that a sheet is read into.
#[derive(Drop)]
pub struct Tables {
    pub events: Vec<Event>,
    pub activities: Vec<Activity>,
    pub lots: Vec<Lot>,
    pub steps: Vec<u16>,
}

impl Tables {
    /// Tables with room for the largest sheet.
    pub fn new(heap: Global) -> Result<Tables, AllocError>
        ensures { IfOk result (λ t. (vec_len t.events ≡ 512) × (vec_len t.activities ≡ 1024) × (vec_len t.lots ≡ 512) × (vec_len t.steps ≡ 4096)) }
    {
        let event = Event {
            truck: 0,
            site: 0,
            side: Side::Arrival,
            tolerance: 0,
        };
        let activity = Activity {
            kind: Kind::Drive,
            tail: 0,
            head: 0,
            margin: 0,
        };
        let lot = Lot {
            class: Class::Ordinary,
            parcels: 0,
            first: 0,
            count: 0,
        };
        Ok(Tables {
            events: vec![in heap; event; 512]?,
            activities: vec![in heap; activity; 1024]?,
            lots: vec![in heap; lot; 512]?,
            steps: vec![in heap; 0u16; 4096]?,
        })
    }

    /// These tables, lent for one sheet.
    pub fn lend(&mut self) -> LentTables<'_>
        ensures events { result.events.now ≡ self.old.events.items }
        ensures activities { result.activities.now ≡ self.old.activities.items }
        ensures lots { result.lots.now ≡ self.old.lots.items }
        ensures steps { result.steps.now ≡ self.old.steps.items }
    {
        LentTables {
            events: self.events.as_mut_slice(),
            activities: self.activities.as_mut_slice(),
            lots: self.lots.as_mut_slice(),
            steps: self.steps.as_mut_slice(),
        }
    }

    /// The sheet that these bytes hold, read into these tables.
    pub fn read<'t>(&'t mut self, bytes: &[u8]) -> Result<Sheet<'t>, SheetFault>
        ensures read { IfOk result (λ sheet. bytes_of (tables_of sheet) ≡ bytes.now) }
        ensures blames { IfErr result (λ fault. (reading_of (room_in self.old.events.items self.old.activities.items self.old.lots.items self.old.steps.items) bytes.now).answer ≡ Err fault) }
    {
        self.lend().read(bytes)
    }
}
