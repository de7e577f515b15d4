//! Reports tested, and noted.
ghost use Rattle.std.specs.Prelude.{◌≡◌, ℕ, ◌<◌, length, slice_index, slice_index_or};
ghost use Rattle.std.specs.Result.{result_err};
ghost use Rattle.sheet.specs.Sheets.{tables_of};
ghost use Rattle.outlook.specs.Reports.{no_report, fault_in, first_fault, noted_after};
ghost use Rattle.outlook.specs.Outlook.{refusal_in};

use crate::answer::OutlookFault;
use crate::report::Report;
use sheet::sheet::Sheet;

/// Tests a report, its event before its minutes.
fn check_report(sheet: &Sheet, report: Report) -> Result<(), OutlookFault>
    ensures { result_err result ≡ fault_in (tables_of sheet.now) report }
{
    if usize::from(report.event) >= sheet.events.len() {
        return Err(OutlookFault::NoEvent);
    }
    if report.minutes > sheet.period {
        return Err(OutlookFault::TooLong);
    }
    Ok(())
}

/// Tests the reports in their order: the first at fault is the one that is told.
fn check_reports(sheet: &Sheet, reports: &[Report]) -> Result<(), OutlookFault>
    ensures { result_err result ≡ first_fault (tables_of sheet.now) reports.now }
{
    for report in reports {
        check_report(sheet, *report)?;
    }
    Ok(())
}

/// Tests whether there is an outlook with so many cells for the lateness and for the live activities.
pub(crate) fn check_call(
    sheet: &Sheet,
    reports: &[Report],
    late_cells: usize,
    live_cells: usize,
) -> Result<(), OutlookFault>
    ensures { result_err result ≡ refusal_in (tables_of sheet.now) reports.now late_cells live_cells }
{
    check_reports(sheet, reports)?;
    if late_cells < sheet.events.len() || live_cells < sheet.activities.len() {
        return Err(OutlookFault::ShortTable);
    }
    Ok(())
}

/// Notes each report in its event's cell, where a later one replaces an earlier one.
pub(crate) fn note(reports: &[Report], delays: &mut [u16])
    requires { (i : ℕ) → i < length reports.now → (slice_index_or reports.now i no_report).event < length delays.old }
    ensures { (e : ℕ) → slice_index delays.new e ≡ noted_after e (slice_index delays.old e) reports.now }
{
    for report in reports {
        delays[usize::from(report.event)] = report.minutes;
    }
}
