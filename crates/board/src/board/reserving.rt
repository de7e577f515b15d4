//! Reserves of a board.
ghost use Rattle.std.specs.Prelude.{◌≡◌, ℕ, ◌≤◌, length, IfErr, OnOk, slice_index};
ghost use Rattle.std.specs.Result.{result_err};
ghost use Rattle.sheet.specs.Sheets.{tables_of};
ghost use Rattle.board.specs.Ledger.{ledger_of, yard_on};
ghost use Rattle.board.specs.Calls.{reserve_refusal, ReserveIn, ReserveLaw};

use crate::board::Board;
use crate::refusal::Refusal;
use carry::rule::Measured;
use reserves::reserve::write_reserves;

impl Board<'_> {
    /// Writes each event's reserve: the greatest delay that it alone may have, every unstruck transfer waiting, so that no event is later
    /// than its tolerance.
    pub fn reserve<R: Measured>(&self, rule: &R, reserves: &mut [u16]) -> Result<(), Refusal>
        ensures refuses { result_err result ≡ reserve_refusal (tables_of self.now.sheet) (length reserves.old) }
        ensures cells { OnOk result (ReserveIn (yard_on (R.Carry.hands rule.now) (ledger_of self.now)) reserves.new) }
        ensures law { OnOk result (ReserveLaw (yard_on (R.Carry.hands rule.now) (ledger_of self.now)) reserves.new) }
        ensures untouched { IfErr result (λ why. reserves.new ≡ reserves.old) }
        ensures kept { (e : ℕ) → length self.now.sheet.events.now ≤ e → slice_index reserves.new e ≡ slice_index reserves.old e }
    {
        if reserves.len() < self.sheet.events.len() {
            return Err(Refusal::ShortTable);
        }
        write_reserves(rule, &self.day(), reserves);
        Ok(())
    }
}
