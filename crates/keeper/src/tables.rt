//! The tables that a caller lends for a board's calls.
ghost use Rattle.std.specs.Prelude.{◌≡◌, IfOk, IfErr};
ghost use Rattle.std.specs.Result.{result_err};
ghost use Rattle.planner.specs.Plans.{PlanIn};
ghost use Rattle.board.specs.Ledger.{ledger_of, yard_on};
ghost use Rattle.board.specs.Calls.{plan_refusal};
ghost use Rattle.keeper.specs.Orders.{room_in};
ghost use Rattle.keeper.specs.Lent.{SameTables, lent};

use crate::tend::Shown;
use board::board::Board;
use board::refusal::Refusal;
use board::tables::{PlanTables, Work};
use carry::rule::Carry;
use tariff::charges::Tariff;

/// Tables for all the calls of a board.
// flat: of slices that a struct within a struct lends, the check does not tell their owner what they hold in the end
#[derive(Drop)]
pub struct Tables<'t, X> {
    /// The worst timetable, for the work of a plan.
    pub worst: &'t mut [u16],
    /// The bills, for the work of a plan.
    pub bills: &'t mut [X],
    /// The lateness of each event, by the last plan.
    pub late: &'t mut [u16],
    /// A byte for each activity, by the last plan: 1 where it goes, 0 otherwise.
    pub gone: &'t mut [u8],
    /// The reserve of each event.
    pub reserves: &'t mut [u16],
}

impl<X> Tables<'_, X> {
    /// What a keeper may look at in these tables.
    pub(crate) fn shown(&self) -> Shown<'_>
        ensures late { result.late.now ≡ self.now.late.now }
        ensures gone { result.gone.now ≡ self.now.gone.now }
        ensures reserves { result.reserves.now ≡ self.now.reserves.now }
    {
        Shown {
            late: self.late,
            gone: self.gone,
            reserves: self.reserves,
        }
    }

    /// Writes a board's plan into these tables, and answers as the board does.
    pub(crate) fn plan<R: Carry, T: Tariff<Toll = X>>(
        &mut self,
        board: &Board,
        rule: &R,
        tariff: &T,
    ) -> Result<(X, usize), Refusal>
        ensures refuses { result_err result ≡ plan_refusal (yard_on (R.hands rule.now) (ledger_of board.now)) (room_in (ledger_of board.now) (lent self.old self.new)) }
        ensures planned { IfOk result (λ answer. PlanIn (T.prices tariff.now) (yard_on (R.hands rule.now) (ledger_of board.now)) self.new.late.now self.new.gone.now answer.0 answer.1) }
        ensures untouched { IfErr result (λ why. (self.new.late.now ≡ self.old.late.now) × (self.new.gone.now ≡ self.old.gone.now)) }
        ensures reserves { self.new.reserves.now ≡ self.old.reserves.now }
        ensures same { SameTables self.old self.new }
    {
        let mut work = Work {
            worst: self.worst,
            bills: self.bills,
        };
        let mut plan = PlanTables {
            late: self.late,
            gone: self.gone,
        };
        board.plan(rule, tariff, &mut work, &mut plan)
    }
}
