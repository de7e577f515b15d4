//! The plan of the published model: what comes too late is the lateness less the margin, and what it costs are parcel-minutes.
ghost use Rattle.std.specs.Prelude.{◌≡◌, length, IfOk};
ghost use Rattle.std.specs.Result.{result_err};
ghost use Rattle.sheet.specs.Sheets.{tables_of};
ghost use Rattle.carry.specs.Handed.{deducted};
ghost use Rattle.board.specs.Ledger.{ledger_of, yard_on};
ghost use Rattle.board.specs.Calls.{plan_refusal};
ghost use Rattle.board.specs.Published.{PublishedPlan};
ghost use Rattle.board.specs.Tables.{plan_fits, SameWork, SamePlanTables};

use crate::board::Board;
use crate::refusal::Refusal;
use crate::tables::{PlanTables, Work};
use carry::deduct::Deduct;
use tariff::parcel_minutes::ParcelMinutes;

impl Board<'_> {
    /// Plans under deduct and parcel-minutes, in the words of the published model.
    pub fn plan_published(
        &self,
        work: &mut Work<'_, u64>,
        tables: &mut PlanTables<'_>,
    ) -> Result<(u64, usize), Refusal>
        ensures refuses { result_err result ≡ plan_refusal (yard_on deducted (ledger_of self.now)) (plan_fits (tables_of self.now.sheet) work.old tables.old) }
        ensures published { IfOk result (λ answer. PublishedPlan (yard_on deducted (ledger_of self.now)) tables.new.late.now tables.new.gone.now answer.0) }
        ensures same { SameWork work.old work.new × SamePlanTables tables.old tables.new }
    {
        self.plan(&Deduct, &ParcelMinutes, work, tables)
    }
}
