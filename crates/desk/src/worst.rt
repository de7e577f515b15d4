//! Looking ahead of reported delays: the text of the outlook, or why there is none.
ghost use Rattle.std.specs.Prelude.{◌≡◌, IfOk, IfErr, None, string_bytes, OnOk};
ghost use Rattle.sheet.specs.Sheets.{tables_of};
ghost use Rattle.sheet_read.specs.Sheets.{reading_of};
ghost use Rattle.sheet_read.specs.Lent.{room_of};
ghost use Rattle.outlook.specs.Reports.{first_fault};
ghost use Rattle.outlook.specs.Outlook.{ahead};
ghost use Rattle.desk.specs.declared.fault.DeskFault.TheVariants.{Memory};
ghost use Rattle.desk.specs.Meanings.{meaning};
ghost use Rattle.desk.specs.Ahead.{three_lines, outlook_text, Foreseen, BlamesAhead, Spoils};

use crate::fault::DeskFault;
use crate::rules::RuleName;
use outlook::answer::Verdict;
use outlook::lines::{LateLine, LiveLine};
use outlook::look::look_ahead;
use outlook::report::Report;
use sheet::sheet::Sheet;
use sheet_read::lent::LentTables;
use std::alloc::Global;

/// The three lines of an outlook.
fn lines_of(
    heap: Global,
    late: &[u16],
    lives: &[bool],
    verdict: Verdict,
) -> Result<String, DeskFault>
    ensures told { IfOk result (λ text. string_bytes text ≡ three_lines late.now lives.now verdict) }
    ensures memory { IfErr result (λ e. e ≡ Memory) }
{
    let late = LateLine(late);
    let live = LiveLine(lives);
    let text = format!(in heap; "{late}\n{live}\n{verdict}\n")?;
    Ok(text)
}

/// The outlook on a sheet, in tables with room for the largest one.
fn outlook_on(
    heap: Global,
    rule: RuleName,
    sheet: &Sheet,
    reports: &[Report],
) -> Result<String, DeskFault>
    ensures told { IfOk result (λ text. string_bytes text ≡ outlook_text (ahead (meaning rule) (tables_of sheet.now) reports.now)) }
    ensures taken { OnOk result (first_fault (tables_of sheet.now) reports.now ≡ None) }
    ensures spoils { IfErr result (Spoils (tables_of sheet.now) reports.now) }
{
    // of a fixed size, that of the largest sheet: tables of the heap could fail
    let mut late = [0u16; 512];
    let mut lives = [false; 1024];
    let verdict = look_ahead(&rule, sheet, reports, &mut late, &mut lives)?;
    lines_of(
        heap,
        &late[0..sheet.events.len()],
        &lives[0..sheet.activities.len()],
        verdict,
    )
}

/// The outlook on the sheet that these bytes hold, read into the tables that the caller lends: the worst timetable, the
/// live activities, and whether the delays can be planned for.
pub fn worst(
    heap: Global,
    bytes: &[u8],
    tables: LentTables<'_>,
    rule: RuleName,
    reports: &[Report],
) -> Result<String, DeskFault>
    ensures foreseen { IfOk result (λ text. Foreseen (meaning rule) bytes.now reports.now (string_bytes text)) }
    ensures blames { IfErr result (BlamesAhead (reading_of (room_of tables.entry) bytes.now).answer bytes.now reports.now) }
{
    let sheet = tables.read(bytes)?;
    // taken apart: what is foreseen is told by two promises of the text together
    let text = outlook_on(heap, rule, &sheet, reports)?;
    Ok(text)
}
