//! The lines that tell an outlook's tables.
ghost use Rattle.std.specs.Prelude.{Some};
ghost use Rattle.outlook.specs.Lines.{late_line, live_line};

use std::fmt;
use words::row::Row;

/// The line of a timetable: each event's lateness.
#[derive(Clone, Copy, Debug, PartialEq, Eq, Hash)]
pub struct LateLine<'a>(pub &'a [u16]);

/// The line of the live activities: the number of each whose cell is true.
#[derive(Clone, Copy, Debug, PartialEq, Eq, Hash)]
pub struct LiveLine<'a>(pub &'a [bool]);

#[tactic(auto, using(words::proofs::Showing::row_of_numbers))]
impl fmt::Display for LateLine<'_> {
    ghost output = { λ s. Some (late_line s.0.now) };

    fn fmt<W: fmt::Write>(&self, f: &mut fmt::Formatter<W>) -> fmt::Result {
        let minutes = Row(self.0);
        write!(f, "lateness{minutes}")
    }
}

impl fmt::Display for LiveLine<'_> {
    ghost output = { λ s. Some (live_line s.0.now) };

    fn fmt<W: fmt::Write>(&self, f: &mut fmt::Formatter<W>) -> fmt::Result {
        write!(f, "live")?;
        for (a, live) in self.0.iter().enumerate() {
            if *live {
                write!(f, " {a}")?;
            }
        }
        Ok(())
    }
}
