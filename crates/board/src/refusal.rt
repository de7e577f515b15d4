//! Why a board refuses a call.
ghost use Rattle.std.specs.Prelude.{◌≡◌, Some};
ghost use Rattle.board.specs.Refusals.{number_of, as_line};
ghost use Rattle.board.specs.Calls.{told};

use std::fmt;
use timetable::forecast::hindrance::Hindrance;

/// What a call was refused for. A call tests its conditions in the order of their numbers.
#[derive(Clone, Copy, PartialEq, Eq, Debug)]
pub enum Refusal {
    /// 9: the sheet has no such event or activity.
    NoSuch,
    /// 10: the minutes are more than the period.
    TooLong,
    /// 11: the activity is no transfer.
    NoTransfer,
    /// 12: the transfer is held or struck already.
    Marked,
    /// 13: the transfer is not struck.
    NotStruck,
    /// 15: a table is too short.
    ShortTable,
    /// 16: delays meet at this event, and at none before it.
    Meeting(usize),
    /// 17: this lot is tangled, and none before it.
    Tangle(usize),
}

impl Refusal {
    /// The number of the refusal.
    pub fn number(self) -> u8
        ensures { result ≡ number_of self }
    {
        match self {
            Refusal::NoSuch => 9,
            Refusal::TooLong => 10,
            Refusal::NoTransfer => 11,
            Refusal::Marked => 12,
            Refusal::NotStruck => 13,
            Refusal::ShortTable => 15,
            Refusal::Meeting(_) => 16,
            Refusal::Tangle(_) => 17,
        }
    }
}

impl From<Hindrance> for Refusal {
    ghost from_gives = { λ hindrance refusal. Some refusal ≡ told (Some hindrance) };

    fn from(hindrance: Hindrance) -> Refusal {
        match hindrance {
            Hindrance::Meeting(event) => Refusal::Meeting(event),
            Hindrance::Tangle(lot) => Refusal::Tangle(lot),
        }
    }
}

impl fmt::Display for Refusal {
    ghost output = { λ refusal. Some (as_line refusal) };

    fn fmt<W: fmt::Write>(&self, f: &mut fmt::Formatter<W>) -> fmt::Result {
        let number = self.number();
        match *self {
            Refusal::Meeting(event) => write!(f, "refused {number} event {event}"),
            Refusal::Tangle(lot) => write!(f, "refused {number} lot {lot}"),
            _ => write!(f, "refused {number}"),
        }
    }
}
