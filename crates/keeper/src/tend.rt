//! Any keeper, let loose on a new board.
ghost use Rattle.std.specs.Prelude.{◌≡◌, true, List, [], ◌∷◌, ◌++◌, length, MatchOption};
ghost use Rattle.sheet.specs.Sheets.{tables_of};
ghost use Rattle.board.specs.Ledger.{Call, ledger_of, yard_on};
ghost use Rattle.board.specs.Calls.{for_events, ReserveLaw};
ghost use Rattle.keeper.specs.Orders.{answered};
ghost use Rattle.keeper.specs.Lent.{SameTables, lent};
ghost use Rattle.keeper.specs.Law.{Ran, KeeperLaw};

use crate::order::{Answer, Order};
use crate::perform::perform;
use crate::reserving::Reserving;
use crate::tables::Tables;
use board::board::Board;
use board::refusal::Refusal;
use board::slip::Slip;
use carry::rule::Carry;
use sheet::sheet::Sheet;
use tariff::charges::Tariff;

/// What a keeper may look at when it is answered: the last plan's lateness and bytes, and the last reserves.
#[derive(Clone, Copy)]
pub struct Shown<'s> {
    pub late: &'s [u16],
    pub gone: &'s [u8],
    pub reserves: &'s [u16],
}

/// Whoever tends a board: it orders calls one after another, by what it was answered so far, until it has had enough. `X` is the tariff's kind
/// of toll, and `A` the leave to ask for reserves.
pub trait Keeper<X, A> {
    /// The calls that were performed for it, first to last.
    ghost log: { Self → List Call };

    /// It has room for one answer.
    ghost ready: { Self → Type 0 } = { λ _. Unit {0} };

    /// It has had enough.
    ghost done: { Self → Type 0 } = { λ _. Unit {0} };

    /// The next order, or none: it has had enough.
    fn next(&mut self) -> Option<Order<Slip, A>>
        ensures same { log self.new ≡ log self.old }
        ensures room { MatchOption result (done self.new) (λ _. ready self.new) };

    /// It is told what came of its order.
    fn told(&mut self, answer: Answer<X>, shown: Shown)
        requires { ready self.old }
        ensures { log self.new ≡ log self.old ++ (answered answer ∷ []) };
}

/// Writes the reserves of a board, where the rule is measured and there is room.
fn write_last<R: Carry, Q: Reserving<R>>(
    rule: &R,
    reserving: &Q,
    board: &Board,
    reserves: &mut [u16],
)
    ensures { Q.measures reserving.now ≡ true → for_events (ledger_of board.now).sheet (length reserves.old) ≡ true → ReserveLaw (yard_on (R.hands rule.now) (ledger_of board.now)) reserves.new }
{
    let leave = reserving.leave();
    let _ = reserving.reserve(leave, rule, board, reserves);
}

/// Opens a board on a sheet under a number and lets a keeper tend it, for so many calls at most; then asks for a plan and, under a measured
/// rule, for reserves, and gives the board back with the plan's answer. What holds then holds after every list of calls, since a keeper may
/// stop anywhere.
pub fn tend<'a, R: Carry, T: Tariff, Q: Reserving<R>, K: Keeper<T::Toll, Q::Ask>>(
    keeper: &mut K,
    sheet: Sheet<'a>,
    number: u16,
    turns: u32,
    rule: &R,
    tariff: &T,
    reserving: &Q,
    tables: &mut Tables<'_, T::Toll>,
) -> (Board<'a>, Result<(T::Toll, usize), Refusal>)
    ensures law { (calls : List Call) × (Ran (K.log keeper.old) (K.log keeper.new) turns (K.done keeper.new) calls × KeeperLaw (T.prices tariff.now) (R.hands rule.now) (Q.measures reserving.now) (tables_of sheet.entry) number calls (ledger_of result.0) result.1 (lent tables.old tables.new)) }
    ensures same { SameTables tables.old tables.new }
{
    let mut board = Board::open(sheet, number);
    for turn in 0..turns {
        let Some(order) = keeper.next() else {
            break;
        };
        let answer = perform(&mut board, order, rule, tariff, reserving, tables);
        keeper.told(answer, tables.shown());
    }
    let plan = tables.plan(&board, rule, tariff);
    write_last(rule, reserving, &board, tables.reserves);
    (board, plan)
}
