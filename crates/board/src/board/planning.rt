//! Plans of a board.
ghost use Rattle.std.specs.Prelude.{◌≡◌, ℕ, ◌≤◌, length, IfOk, IfErr, slice_index};
ghost use Rattle.std.specs.Result.{result_err};
ghost use Rattle.sheet.specs.Sheets.{tables_of};
ghost use Rattle.model.specs.Laws.{yard};
ghost use Rattle.timetable.specs.Days.{delay_on, mark_on, yard_of};
ghost use Rattle.planner.specs.Plans.{PlanIn};
ghost use Rattle.board.specs.declared.refusal.Refusal.TheVariants.{ShortTable};
ghost use Rattle.board.specs.Ledger.{ledger_of, yard_on};
ghost use Rattle.board.specs.Kept.{Timely};
ghost use Rattle.board.specs.Calls.{plan_refusal};
ghost use Rattle.board.specs.Tables.{plan_fits, WorkLeft, PlanLeft, SameWork, SamePlanTables};

use crate::board::Board;
use crate::refusal::Refusal;
use crate::tables::{PlanTables, Work};
use carry::rule::Carry;
use planner::plan::plan;
use sheet::sheet::Sheet;
use tariff::charges::Tariff;
use timetable::day::{Day, MarkRecord};

/// The day of a board, as the planner reads it.
pub(crate) fn day_on<'d>(
    sheet: &'d Sheet<'_>,
    delays: &'d [u16; 512],
    marks: &'d [MarkRecord; 1024],
    trial: Option<u16>,
) -> Day<'d>
    requires { Timely sheet.now.period delays.now }
    ensures sheet { result.sheet ≡ sheet.now }
    ensures yard { (rule : ℕ → ℕ → ℕ) → yard_of rule result ≡ yard (tables_of sheet.now) rule (delay_on delays.now) (mark_on marks.now trial) }
{
    Day {
        sheet: *sheet,
        delays,
        marks,
        trial,
    }
}

impl Board<'_> {
    /// The board as the planner reads it.
    pub(crate) fn day(&self) -> Day<'_>
        ensures sheet { result.sheet ≡ self.now.sheet }
        ensures yard { (rule : ℕ → ℕ → ℕ) → yard_of rule result ≡ yard_on rule (ledger_of self.now) }
    {
        day_on(&self.sheet, &self.delays, &self.marks, None)
    }

    /// Whether these tables are long enough for a plan.
    fn has_room<X>(&self, work: &Work<'_, X>, tables: &PlanTables<'_>) -> bool
        ensures { result ≡ plan_fits (tables_of self.now.sheet) work.now tables.now }
    {
        let events = self.sheet.events.len();
        let activities = self.sheet.activities.len();
        work.has_room(events) && tables.has_room(events, activities)
    }

    /// Writes a plan: the lateness of each event and a byte for each activity. Answers the toll and how many unmarked transfers go.
    pub fn plan<R: Carry, T: Tariff>(
        &self,
        rule: &R,
        tariff: &T,
        work: &mut Work<'_, T::Toll>,
        tables: &mut PlanTables<'_>,
    ) -> Result<(T::Toll, usize), Refusal>
        ensures refuses { result_err result ≡ plan_refusal (yard_on (R.hands rule.now) (ledger_of self.now)) (plan_fits (tables_of self.now.sheet) work.old tables.old) }
        ensures planned { IfOk result (λ answer. PlanIn (T.prices tariff.now) (yard_on (R.hands rule.now) (ledger_of self.now)) tables.new.late.now tables.new.gone.now answer.0 answer.1) }
        ensures untouched { IfErr result (λ why. PlanLeft tables.old tables.new) }
        ensures work { IfErr result (λ why. why ≡ ShortTable → WorkLeft work.old work.new) }
        ensures late { (e : ℕ) → length self.now.sheet.events.now ≤ e → slice_index tables.new.late.now e ≡ slice_index tables.old.late.now e }
        ensures gone { (a : ℕ) → length self.now.sheet.activities.now ≤ a → slice_index tables.new.gone.now a ≡ slice_index tables.old.gone.now a }
        ensures same { SameWork work.old work.new × SamePlanTables tables.old tables.new }
    {
        if !self.has_room(work, tables) {
            return Err(Refusal::ShortTable);
        }
        Ok(plan(
            rule,
            tariff,
            self.day(),
            work.worst,
            work.bills,
            tables.late,
            tables.gone,
        )?)
    }
}
