//! Whether reserves can be asked for: under a measured rule they can, and under any other there is no leave to ask.
ghost use Rattle.std.specs.Prelude.{◌≡◌, Bool, true, false, is_some};
ghost use Rattle.board.specs.Ledger.{ledger_of, yard_on};
ghost use Rattle.keeper.specs.Asking.{ReservesAsked};

use board::board::Board;
use board::refusal::Refusal;
use carry::rule::{Carry, Measured};

/// How reserves are had under a rule.
pub trait Reserving<R: Carry> {
    /// The leave to ask for reserves.
    type Ask: Copy;

    /// Whether the rule is measured, so that the leave can be had.
    ghost measures: { Self → Bool };

    /// The leave to ask for reserves, where the rule is measured.
    fn leave(&self) -> Option<Self::Ask>
        ensures { is_some result ≡ measures self.now };

    /// Writes each event's reserve, by the leave to ask for it; with no leave nothing is written, and there is no answer.
    // an option of the leave, so that every call can be made: under a rule that is not measured nobody has one
    fn reserve(
        &self,
        ask: Option<Self::Ask>,
        rule: &R,
        board: &Board,
        reserves: &mut [u16],
    ) -> Option<Result<(), Refusal>>
        ensures asked { is_some result ≡ is_some ask }
        ensures reserves { ReservesAsked (yard_on (R.Carry.hands rule.now) (ledger_of board.now)) reserves.old reserves.new result };
}

/// The leave that nobody has.
#[derive(Clone, Copy)]
pub enum NoLeave {}

/// There are no reserves: the rule need not be measured.
#[derive(Clone, Copy)]
pub struct Unmeasured;

impl<R: Carry> Reserving<R> for Unmeasured {
    type Ask = NoLeave;

    ghost measures = { λ s. false };

    fn leave(&self) -> Option<NoLeave> {
        None
    }

    fn reserve(
        &self,
        ask: Option<NoLeave>,
        rule: &R,
        board: &Board,
        reserves: &mut [u16],
    ) -> Option<Result<(), Refusal>>
        ensures asked { is_some result ≡ is_some ask }
        ensures reserves { ReservesAsked (yard_on (R.Carry.hands rule.now) (ledger_of board.now)) reserves.old reserves.new result }
    {
        match ask {
            None => None,
            // a leave has no value here
            Some(leave) => match leave {},
        }
    }
}

/// Reserves by what remains under a measured rule.
#[derive(Clone, Copy)]
pub struct ByRemains;

impl<R: Measured> Reserving<R> for ByRemains {
    type Ask = ();

    ghost measures = { λ s. true };

    fn leave(&self) -> Option<()> {
        Some(())
    }

    fn reserve(
        &self,
        ask: Option<()>,
        rule: &R,
        board: &Board,
        reserves: &mut [u16],
    ) -> Option<Result<(), Refusal>>
        ensures asked { is_some result ≡ is_some ask }
        ensures reserves { ReservesAsked (yard_on (R.Carry.hands rule.now) (ledger_of board.now)) reserves.old reserves.new result }
    {
        ask?;
        Some(board.reserve(rule, reserves))
    }
}
