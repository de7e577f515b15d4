//! What came of a call, as the console tells it.
ghost use Rattle.console.specs.Outcomes.{outcome_text};

use board::refusal::Refusal;
use board::slip::NotReleased;
use outlook::lines::LateLine;
use std::fmt;
use words::row::Row;

/// What came of a call; `X` is the tariff's kind of toll.
#[derive(Clone, Copy)]
pub enum Outcome<'s, X> {
    Done,
    /// The board's number and the transfer's, as the slip has them.
    Slip(u16, u16),
    Refused(Refusal),
    /// The slip was not this board's, or its transfer not held.
    NotReleased,
    Toll(X),
    /// A plan's toll, how many transfers go, each event's lateness, and each activity's byte.
    Plan(X, usize, &'s [u16], &'s [u8]),
    /// Each event's reserve.
    Reserves(&'s [u16]),
}

/// What stands after a call and its colon, a blank before each word; a plan has two lines more.
#[tactic(auto, using(words::proofs::Showing::row_of_numbers))]
impl<X: fmt::Display> fmt::Display for Outcome<'_, X> {
    ghost output = { outcome_text X.output };

    fn fmt<W: fmt::Write>(&self, f: &mut fmt::Formatter<W>) -> fmt::Result {
        match self {
            Outcome::Done => write!(f, " done"),
            Outcome::Slip(board, activity) => write!(f, " slip {board} {activity}"),
            Outcome::Refused(refusal) => write!(f, " {refusal}"),
            Outcome::NotReleased => {
                let number = NotReleased::number();
                write!(f, " refused {number}")
            }
            Outcome::Toll(toll) => write!(f, " toll {toll}"),
            Outcome::Plan(toll, gone, late, choices) => {
                let late = LateLine(late);
                let choices = Row(choices);
                write!(f, " toll {toll} gone {gone}\n{late}\nchoices{choices}")
            }
            Outcome::Reserves(reserves) => {
                let minutes = Row(reserves);
                write!(f, "{minutes}")
            }
        }
    }
}
