//! The lines of a listing: how each record of a sheet is written.
ghost use Rattle.std.specs.Prelude.{Some};
ghost use Rattle.listing.specs.Lines.{period_line, event_line, activity_line, lot_line};

use sheet::records::{Activity, Class, Event};
use std::fmt;
use words::row::Row;

/// The line of a period.
#[derive(Clone, Copy)]
pub struct PeriodLine(pub u16);

/// The line of an event.
#[derive(Clone, Copy)]
pub struct EventLine(pub Event);

/// The line of an activity.
#[derive(Clone, Copy)]
pub struct ActivityLine(pub Activity);

/// The line of a lot: its class, its parcels and the activities that it goes along.
#[derive(Clone, Copy)]
pub struct LotLine<'a> {
    pub class: Class,
    pub parcels: u16,
    pub steps: &'a [u16],
}

impl fmt::Display for PeriodLine {
    ghost output = { λ p. Some (period_line p.0) };

    fn fmt<W: fmt::Write>(&self, f: &mut fmt::Formatter<W>) -> fmt::Result {
        let period = self.0;
        write!(f, "period {period}")
    }
}

impl fmt::Display for EventLine {
    ghost output = { λ e. Some (event_line e.0) };

    fn fmt<W: fmt::Write>(&self, f: &mut fmt::Formatter<W>) -> fmt::Result {
        let Event {
            truck,
            site,
            side,
            tolerance,
        } = self.0;
        write!(f, "event {truck} {site} {side} {tolerance}")
    }
}

impl fmt::Display for ActivityLine {
    ghost output = { λ a. Some (activity_line a.0) };

    fn fmt<W: fmt::Write>(&self, f: &mut fmt::Formatter<W>) -> fmt::Result {
        let Activity {
            kind,
            tail,
            head,
            margin,
        } = self.0;
        write!(f, "{kind} {tail} {head} {margin}")
    }
}

impl fmt::Display for LotLine<'_> {
    ghost output = { λ l. Some (lot_line l.class l.parcels l.steps.now) };

    #[tactic(auto, using(words::proofs::Showing::row_of_numbers))]
    fn fmt<W: fmt::Write>(&self, f: &mut fmt::Formatter<W>) -> fmt::Result {
        let LotLine {
            class,
            parcels,
            steps,
        } = *self;
        let steps = Row(steps);
        write!(f, "lot {class} {parcels}{steps}")
    }
}
