//! What the outlook answers: a verdict, or why there is none.
ghost use Rattle.std.specs.Prelude.{◌≡◌, Some};
ghost use Rattle.outlook.specs.Answers.{refusal_number, refusal_text, verdict_text};

use std::fmt;
use timetable::forecast::hindrance::Hindrance;

/// Whether the delays can be planned for: what stands in the way, if anything does.
#[derive(Clone, Copy, PartialEq, Eq, Debug)]
pub struct Verdict(pub Option<Hindrance>);

/// Why there is no outlook.
// apart from a board's refusals: an outlook is refused for these three and for no other
#[derive(Clone, Copy, PartialEq, Eq, Debug)]
pub enum OutlookFault {
    /// A report is of an event that the sheet does not have.
    NoEvent,
    /// A report's minutes are above the period.
    TooLong,
    /// A lent table is too short.
    ShortTable,
}

impl OutlookFault {
    /// The number of the refusal.
    pub fn number(self) -> u8
        ensures { result ≡ refusal_number self }
    {
        match self {
            OutlookFault::NoEvent => 9,
            OutlookFault::TooLong => 10,
            OutlookFault::ShortTable => 15,
        }
    }
}

impl fmt::Display for OutlookFault {
    ghost output = { λ fault. Some (refusal_text fault) };

    fn fmt<W: fmt::Write>(&self, f: &mut fmt::Formatter<W>) -> fmt::Result {
        let number = self.number();
        write!(f, "refused {number}")
    }
}

impl fmt::Display for Verdict {
    ghost output = { λ verdict. Some (verdict_text verdict) };

    fn fmt<W: fmt::Write>(&self, f: &mut fmt::Formatter<W>) -> fmt::Result {
        match self.0 {
            Some(Hindrance::Meeting(event)) => write!(f, "meet {event}"),
            Some(Hindrance::Tangle(lot)) => write!(f, "tangled {lot}"),
            None => write!(f, "clear"),
        }
    }
}
