//! What a keeper orders, and what it is answered.
ghost use Rattle.std.specs.Prelude.{Some};
ghost use Rattle.keeper.specs.Notes.{note_text};

use board::refusal::Refusal;
use board::slip::{NotReleased, Slip};
use std::fmt;

/// A call of a board. `S` is what a release is given: the slip, or what is known of it. `A` is the leave to ask for reserves.
#[derive(Clone, Copy, Debug, PartialEq, Eq, Hash)]
pub enum Order<S, A> {
    /// An event, and the minutes that it is delayed.
    Report(u16, u16),
    Hold(u16),
    Release(S),
    Strike(u16),
    Clear(u16),
    Trial(u16),
    Plan,
    Reserve(A),
}

/// A call that was performed; of a slip its two numbers, the board's and the transfer's.
pub type Noted = Order<(u16, u16), ()>;

/// A call as it is told, a release by its transfer alone.
impl fmt::Display for Order<(u16, u16), ()> {
    ghost output = { λ noted. Some (note_text noted) };

    fn fmt<W: fmt::Write>(&self, f: &mut fmt::Formatter<W>) -> fmt::Result {
        match *self {
            Order::Report(event, minutes) => write!(f, "report {event} {minutes}"),
            Order::Hold(a) => write!(f, "hold {a}"),
            Order::Release((_, a)) => write!(f, "release {a}"),
            Order::Strike(a) => write!(f, "strike {a}"),
            Order::Clear(a) => write!(f, "clear {a}"),
            Order::Trial(a) => write!(f, "trial {a}"),
            Order::Plan => write!(f, "plan"),
            Order::Reserve(()) => write!(f, "reserve"),
        }
    }
}

/// What came of a call, with the numbers that it was about; `X` is the tariff's kind of toll.
pub enum Answer<X> {
    Reported(u16, u16, Result<(), Refusal>),
    Held(u16, Result<Slip, Refusal>),
    /// The board's number and the transfer's, as the slip has them; a refused release gives the slip back.
    Released(u16, u16, Result<(), NotReleased>),
    Struck(u16, Result<(), Refusal>),
    Cleared(u16, Result<(), Refusal>),
    Tried(u16, Result<X, Refusal>),
    Planned(Result<(X, usize), Refusal>),
    Reserved(Result<(), Refusal>),
}
