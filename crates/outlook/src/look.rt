//! Looking ahead: the one call, which asks for nothing.
ghost use Rattle.std.specs.Prelude.{◌≡◌, length, replicate, IfOk, None, OnErr, OnOk};
ghost use Rattle.std.specs.Result.{result_err};
ghost use Rattle.sheet.specs.Sheets.{tables_of};
ghost use Rattle.timetable.specs.Days.{no_mark};
ghost use Rattle.outlook.specs.Outlook.{ShowsWorst, ShowsLive, refusal_in, ahead, verdict_of};

use crate::answer::{OutlookFault, Verdict};
use crate::note::{check_call, note};
use crate::report::Report;
use crate::survey::survey;
use carry::rule::Carry;
use model::mark::Mark;
use sheet::sheet::Sheet;
use timetable::day::{Day, MarkRecord};

// of a fixed size: an outlook holds no heap
/// No mark on any of the activities that a sheet can have.
static UNMARKED: [MarkRecord; 1024] = [MarkRecord {
    mark: Mark::Unmarked,
}; 1024];

/// Marks for the largest sheet, none of which is set.
fn unmarked() -> &'static [MarkRecord]
    ensures { result.now ≡ replicate 1024 no_mark }
{
    &UNMARKED
}

/// Looks ahead where nothing is refused.
fn foresee<R: Carry>(
    rule: &R,
    sheet: &Sheet,
    reports: &[Report],
    late: &mut [u16],
    lives: &mut [bool],
) -> Verdict
    requires { refusal_in (tables_of sheet.now) reports.now (length late.old) (length lives.old) ≡ None }
    ensures verdict { result ≡ verdict_of (ahead (R.hands rule.now) (tables_of sheet.now) reports.now) }
    ensures late { ShowsWorst (ahead (R.hands rule.now) (tables_of sheet.now) reports.now) late.old late.new }
    ensures live { ShowsLive (ahead (R.hands rule.now) (tables_of sheet.now) reports.now) lives.old lives.new }
{
    // of a fixed size: an outlook holds no heap
    let mut delays = [0u16; 512];
    note(reports, &mut delays);
    let day = Day {
        sheet: *sheet,
        delays: &delays,
        marks: unmarked(),
        trial: None,
    };
    survey(rule, day, late, lives)
}

/// Looks ahead of the reported delays, with no transfer marked: writes the worst timetable, a cell an event, and which
/// activities are live, a cell an activity, and answers whether the delays can be planned for.
// over plain slices, as plans are: what a refusal leaves, and the cells past the sheet, are promised of each table
pub fn look_ahead<R: Carry>(
    rule: &R,
    sheet: &Sheet,
    reports: &[Report],
    late: &mut [u16],
    lives: &mut [bool],
) -> Result<Verdict, OutlookFault>
    ensures refusal { result_err result ≡ refusal_in (tables_of sheet.now) reports.now (length late.old) (length lives.old) }
    ensures verdict { IfOk result (λ v. v ≡ verdict_of (ahead (R.hands rule.now) (tables_of sheet.now) reports.now)) }
    ensures late { OnOk result (ShowsWorst (ahead (R.hands rule.now) (tables_of sheet.now) reports.now) late.old late.new) }
    ensures live { OnOk result (ShowsLive (ahead (R.hands rule.now) (tables_of sheet.now) reports.now) lives.old lives.new) }
    ensures kept { OnErr result ((late.new ≡ late.old) × (lives.new ≡ lives.old)) }
{
    check_call(sheet, reports, late.len(), lives.len())?;
    Ok(foresee(rule, sheet, reports, late, lives))
}
