//! Trials: what a plan would cost if one transfer were struck.
ghost use Rattle.std.specs.Prelude.{◌≡◌, ℕ, ◌≤◌, length, IfOk, IfErr, None};
ghost use Rattle.std.specs.Result.{result_err};
ghost use Rattle.sheet.specs.Sheets.{tables_of};
ghost use Rattle.model.specs.Laws.{yard};
ghost use Rattle.timetable.specs.Days.{delay_on, mark_on};
ghost use Rattle.board.specs.Kept.{Timely};
ghost use Rattle.planner.specs.Plans.{TollOfPlan};
ghost use Rattle.board.specs.Refusals.{number_of};
ghost use Rattle.board.specs.Ledger.{ledger_of, yard_on, step, strike};
ghost use Rattle.board.specs.Calls.{plan_refusal, trial_refusal};
ghost use Rattle.board.specs.Tables.{work_fits, WorkLeft, SameWork};

use crate::board::planning::day_on;
use crate::board::{Board, TrialRecord};
use crate::refusal::Refusal;
use crate::tables::Work;
use carry::rule::Carry;
use planner::plan_toll::plan_toll;
use sheet::sheet::Sheet;
use tariff::charges::Tariff;
use timetable::day::MarkRecord;

/// A trial under way: the record names the transfer on trial, and is put back when the guard goes, on whatever way out.
struct TrialGuard<'g>(&'g mut TrialRecord);

impl Drop for TrialGuard<'_> {
    fn drop(self)
        ensures { self.exit.0.now.trial ≡ None }
    {
        self.0.trial = None;
        let TrialGuard(_) = self;
    }
}

/// What a plan would cost with these delays, marks and trial, or why it is refused.
// field by field: of a board behind `&mut` whose day was lent on a proof does not know that it stayed
fn toll_on<'d, R: Carry, T: Tariff>(
    rule: &R,
    tariff: &T,
    sheet: &'d Sheet<'_>,
    delays: &'d [u16; 512],
    marks: &'d [MarkRecord; 1024],
    trial: Option<u16>,
    work: &mut Work<'_, T::Toll>,
) -> Result<T::Toll, Refusal>
    requires { Timely sheet.now.period delays.now }
    ensures refuses { result_err result ≡ plan_refusal (yard (tables_of sheet.now) (R.hands rule.now) (delay_on delays.now) (mark_on marks.now trial)) (work_fits (tables_of sheet.now) work.old) }
    ensures toll { IfOk result (λ toll. TollOfPlan (T.prices tariff.now) (yard (tables_of sheet.now) (R.hands rule.now) (delay_on delays.now) (mark_on marks.now trial)) toll) }
    ensures work { IfErr result (λ why. number_of why ≤ 15 → WorkLeft work.old work.new) }
    ensures same { SameWork work.old work.new }
{
    if !work.has_room(sheet.events.len()) {
        return Err(Refusal::ShortTable);
    }
    let day = day_on(sheet, delays, marks, trial);
    Ok(plan_toll(rule, tariff, day, work.worst, work.bills)?)
}

impl Board<'_> {
    /// The toll that a plan would have if this unmarked transfer were struck. The board is left as it was, and only the work tables are written.
    pub fn trial<R: Carry, T: Tariff>(
        &mut self,
        rule: &R,
        tariff: &T,
        activity: u16,
        work: &mut Work<'_, T::Toll>,
    ) -> Result<T::Toll, Refusal>
        ensures refuses { result_err result ≡ trial_refusal (ledger_of self.old) activity (yard_on (R.hands rule.now) (step (ledger_of self.old) (strike activity))) (work_fits (tables_of self.old.sheet) work.old) }
        ensures toll { IfOk result (λ toll. TollOfPlan (T.prices tariff.now) (yard_on (R.hands rule.now) (step (ledger_of self.old) (strike activity))) toll) }
        ensures after { ledger_of self.new ≡ ledger_of self.old }
        ensures work { IfErr result (λ why. number_of why ≤ 15 → WorkLeft work.old work.new) }
        ensures same { SameWork work.old work.new }
    {
        self.free(activity)?;
        let Board {
            sheet,
            delays,
            marks,
            trial,
            ..
        } = self;
        trial.trial = Some(activity);
        let guard = TrialGuard(trial);
        let code = guard.0.trial;
        toll_on(rule, tariff, sheet, delays, marks, code, work)
    }
}
