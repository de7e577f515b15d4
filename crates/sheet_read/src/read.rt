//! Reading a whole sheet into the caller's tables.
ghost use Rattle.std.specs.Prelude.{◌≡◌, length, IfOk};
ghost use Rattle.sheet.specs.Laid.{laid};
ghost use Rattle.sheet_read.specs.Numbers.{Reads};
ghost use Rattle.sheet_read.specs.Sheets.{room_in, reading_of, terms_of, lots_section_of};
ghost use Rattle.sheet_read.specs.Lent.{room_of, SameTables, AcceptedIn};

use crate::fault::{Section, SheetFault};
use crate::lent::LentTables;
use crate::lot::read_lots;
use crate::record::{ActivityRule, EventRule, PeriodRule, read_record};
use crate::section::{read_count, read_section};
use crate::unread::Unread;
use sheet::records::{Activity, Event, Lot};

/// What was read of a sheet: its period, and how many records and steps its tables now hold, each at its front.
#[derive(Clone, Copy, PartialEq, Eq, Debug)]
pub struct Extent {
    pub period: u16,
    pub events: usize,
    pub activities: usize,
    pub lots: usize,
    pub steps: usize,
}

/// Reads the terms: one record, the period.
fn read_terms<'b>(unread: Unread<'b>) -> Result<(u16, Unread<'b>), SheetFault>
    ensures { Reads unread.entry result (terms_of unread.entry.total unread.entry.rest.now) }
{
    let (_, unread) = read_count(unread, Section::Terms, 1)?;
    let period = read_record(&PeriodRule, unread, unread.spot(Section::Terms, 0))?;
    Ok(period)
}

/// Reads the section of the lots, to the end of the sheet; answers how many lots and steps there are.
fn read_lots_section(
    activities: &[Activity],
    unread: Unread<'_>,
    lots: &mut [Lot],
    steps: &mut [u16],
) -> Result<(u16, u16), SheetFault>
    ensures answer { result ≡ (lots_section_of activities.now unread.entry.total (length lots.old) (length steps.old) unread.entry.rest.now).answer }
    ensures lots { lots.new ≡ laid 0 (lots_section_of activities.now unread.entry.total (length lots.old) (length steps.old) unread.entry.rest.now).lots lots.old }
    ensures steps { steps.new ≡ laid 0 (lots_section_of activities.now unread.entry.total (length lots.old) (length steps.old) unread.entry.rest.now).steps steps.old }
{
    let (count, unread) = read_count(unread, Section::Lots, lots.len())?;
    let (used, unread) = read_lots(activities, count, unread, lots, steps)?;
    if !unread.rest.is_empty() {
        return Err(SheetFault::Leftover(unread.spot(Section::Lots, count)));
    }
    Ok((count, used))
}

/// Fills the fronts of the tables with what the bytes hold, until their end or the first fault.
// Four slices, since two tables are lent at once here, which through one `&mut LentTables` has no proof.
fn fill_tables(
    bytes: &[u8],
    events: &mut [Event],
    activities: &mut [Activity],
    lots: &mut [Lot],
    steps: &mut [u16],
) -> Result<Extent, SheetFault>
    ensures answer { result ≡ (reading_of (room_in events.old activities.old lots.old steps.old) bytes.now).answer }
    ensures events { events.new ≡ laid 0 (reading_of (room_in events.old activities.old lots.old steps.old) bytes.now).events events.old }
    ensures activities { activities.new ≡ laid 0 (reading_of (room_in events.old activities.old lots.old steps.old) bytes.now).activities activities.old }
    ensures lots { lots.new ≡ laid 0 (reading_of (room_in events.old activities.old lots.old steps.old) bytes.now).lots lots.old }
    ensures steps { steps.new ≡ laid 0 (reading_of (room_in events.old activities.old lots.old steps.old) bytes.now).steps steps.old }
{
    let (period, unread) = read_terms(Unread::all(bytes))?;
    let rule = EventRule { period };
    let (event_count, unread) = read_section(&rule, Section::Events, unread, events)?;
    let known = &events[..usize::from(event_count)];
    let rule = ActivityRule { events: known };
    let (activity_count, unread) = read_section(&rule, Section::Activities, unread, activities)?;
    let known = &activities[..usize::from(activity_count)];
    let (lot_count, step_count) = read_lots_section(known, unread, lots, steps)?;
    Ok(Extent {
        period,
        events: usize::from(event_count),
        activities: usize::from(activity_count),
        lots: usize::from(lot_count),
        steps: usize::from(step_count),
    })
}

/// Reads a sheet into the caller's tables, or refuses it.
/// What was read before a fault stays written; all other cells keep their contents.
pub fn read_sheet(bytes: &[u8], tables: &mut LentTables<'_>) -> Result<Extent, SheetFault>
    ensures answer { result ≡ (reading_of (room_of tables.old) bytes.now).answer }
    ensures events { tables.new.events.now ≡ laid 0 (reading_of (room_of tables.old) bytes.now).events tables.old.events.now }
    ensures activities { tables.new.activities.now ≡ laid 0 (reading_of (room_of tables.old) bytes.now).activities tables.old.activities.now }
    ensures lots { tables.new.lots.now ≡ laid 0 (reading_of (room_of tables.old) bytes.now).lots tables.old.lots.now }
    ensures steps { tables.new.steps.now ≡ laid 0 (reading_of (room_of tables.old) bytes.now).steps tables.old.steps.now }
    ensures same { SameTables tables.old tables.new }
    ensures accepted { IfOk result (λ x. AcceptedIn bytes.now x tables.new) }
{
    fill_tables(
        bytes,
        tables.events,
        tables.activities,
        tables.lots,
        tables.steps,
    )
}
