//! Performing an order.
ghost use Rattle.std.specs.Prelude.{◌≡◌, false};
ghost use Rattle.board.specs.Ledger.{ledger_of, step};
ghost use Rattle.keeper.specs.Orders.{call_of, answered, Answers, wrote_plan, wrote_reserves};
ghost use Rattle.keeper.specs.Lent.{SameTables, lent};

use crate::order::{Answer, Order};
use crate::reserving::Reserving;
use crate::tables::Tables;
use board::board::Board;
use board::slip::Slip;
use board::tables::Work;
use carry::rule::Carry;
use tariff::charges::Tariff;

/// Performs an order on a board, in these tables.
pub fn perform<R: Carry, T: Tariff, Q: Reserving<R>>(
    board: &mut Board,
    order: Order<Slip, Q::Ask>,
    rule: &R,
    tariff: &T,
    reserving: &Q,
    tables: &mut Tables<'_, T::Toll>,
) -> Answer<T::Toll>
    ensures call { answered result ≡ call_of order }
    ensures answer { Answers (T.prices tariff.now) (R.Carry.hands rule.now) (ledger_of board.old) (lent tables.old tables.new) result }
    ensures plan { wrote_plan result ≡ false → (tables.new.late.now ≡ tables.old.late.now) × (tables.new.gone.now ≡ tables.old.gone.now) }
    ensures reserves { wrote_reserves result ≡ false → tables.new.reserves.now ≡ tables.old.reserves.now }
    ensures after { ledger_of board.new ≡ step (ledger_of board.old) (call_of order) }
    ensures same { SameTables tables.old tables.new }
{
    match order {
        Order::Report(event, minutes) => {
            Answer::Reported(event, minutes, board.report(event, minutes))
        }
        Order::Hold(a) => Answer::Held(a, board.hold(a)),
        Order::Release(slip) => {
            let (number, a) = (slip.board(), slip.activity());
            Answer::Released(number, a, board.release(slip))
        }
        Order::Strike(a) => Answer::Struck(a, board.strike(a)),
        Order::Clear(a) => Answer::Cleared(a, board.clear(a)),
        Order::Trial(a) => {
            let mut work = Work {
                worst: tables.worst,
                bills: tables.bills,
            };
            Answer::Tried(a, board.trial(rule, tariff, a, &mut work))
        }
        Order::Plan => Answer::Planned(tables.plan(board, rule, tariff)),
        Order::Reserve(ask) => match reserving.reserve(Some(ask), rule, board, tables.reserves) {
            Some(answer) => Answer::Reserved(answer),
            None => unreachable!(),
        },
    }
}
