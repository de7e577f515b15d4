//! The lots of a sheet: each lot's three numbers, then its steps, which fill a stretch of the step table.
ghost use Rattle.std.specs.Prelude.{◌≡◌, ◌+◌, ◌≤◌, length};
ghost use Rattle.std.specs.Result.{result_err};
ghost use Rattle.sheet.specs.Laid.{laid};
ghost use Rattle.sheet_read.specs.Lots.{steps_from, room_for, lot_of, lot_alone, lot_steps, lots_of, lots_answer, lots_read, steps_read};
ghost use Rattle.sheet_read.specs.Numbers.{Reads, GoesOn};

use crate::fault::{RecordFault, Section, SheetFault, Spot};
use crate::record::{HeadRule, StepRule, read_record};
use crate::unread::Unread;
use sheet::records::{Activity, Lot};

/// Reads the steps of lot number `lot`, one into each of its cells.
pub(crate) fn read_steps<'b>(
    activities: &[Activity],
    lot: u16,
    unread: Unread<'b>,
    steps: &mut [u16],
) -> Result<Unread<'b>, RecordFault>
    ensures answer { GoesOn unread.entry result (steps_from activities.now lot unread.entry.total (length steps.old) unread.entry.rest.now).1 }
    ensures cells { steps.new ≡ laid 0 (steps_from activities.now lot unread.entry.total (length steps.old) unread.entry.rest.now).0 steps.old }
{
    let mut left = unread;
    let mut from: Option<u16> = None;
    for cell in steps.iter_mut() {
        let rule = StepRule { activities, from };
        let (step, after) = read_record(&rule, left, left.spot(Section::Lots, lot))?;
        *cell = step;
        from = Some(activities[usize::from(step)].head);
        left = after;
    }
    Ok(left)
}

/// Refuses `count` more steps that are out of bounds, or have no room in a step table of `cells` cells.
fn fits(at: Spot, cells: usize, used: u16, count: u16) -> Result<(), SheetFault>
    ensures { result_err result ≡ room_for at cells used count }
{
    let all = usize::from(used) + usize::from(count);
    if all > 4096 {
        return Err(SheetFault::Bounds(at));
    }
    if all > cells {
        return Err(SheetFault::Table(at));
    }
    Ok(())
}

/// Reads lot number `lot`, after `used` steps of earlier lots.
pub(crate) fn read_lot<'b>(
    activities: &[Activity],
    lot: u16,
    used: u16,
    unread: Unread<'b>,
    steps: &mut [u16],
) -> Result<(Lot, Unread<'b>), SheetFault>
    requires { used ≤ length steps.old }
    ensures answer { Reads unread.entry result (lot_alone (lot_of activities.now unread.entry.total (length steps.old) (lot, used) unread.entry.rest.now)) }
    ensures cells { steps.new ≡ laid used (lot_steps (lot_of activities.now unread.entry.total (length steps.old) (lot, used) unread.entry.rest.now)) steps.old }
{
    let at = unread.spot(Section::Lots, lot);
    let (head, rest) = read_record(&HeadRule, unread, at)?;
    fits(at, steps.len(), used, head.count)?;
    let first = usize::from(used);
    let own = &mut steps[first..first + usize::from(head.count)];
    let rest = read_steps(activities, lot, rest, own)?;
    let lot = Lot {
        class: head.class,
        parcels: head.parcels,
        first: used,
        count: head.count,
    };
    Ok((lot, rest))
}

/// Reads `count` lots into the fronts of the lot table and the step table; answers how many steps they have.
pub(crate) fn read_lots<'b>(
    activities: &[Activity],
    count: u16,
    unread: Unread<'b>,
    lots: &mut [Lot],
    steps: &mut [u16],
) -> Result<(u16, Unread<'b>), SheetFault>
    requires { count ≤ length lots.old }
    ensures answer { Reads unread.entry result (lots_answer (lots_of activities.now unread.entry.total (length steps.old) count unread.entry.rest.now)) }
    ensures lots { lots.new ≡ laid 0 (lots_read (lots_of activities.now unread.entry.total (length steps.old) count unread.entry.rest.now)) lots.old }
    ensures steps { steps.new ≡ laid 0 (steps_read (lots_of activities.now unread.entry.total (length steps.old) count unread.entry.rest.now)) steps.old }
{
    let mut left = unread;
    let mut used = 0;
    // by number, which the lot's spot has too
    for i in 0..count {
        let (lot, after) = read_lot(activities, i, used, left, steps)?;
        lots[usize::from(i)] = lot;
        used += lot.count;
        left = after;
    }
    Ok((used, left))
}
