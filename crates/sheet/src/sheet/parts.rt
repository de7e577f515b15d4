//! Making a sheet, and a lot's own stretch of the step table.
ghost use Rattle.std.specs.Prelude.{◌≡◌, ◌≤◌, true, length};
ghost use Rattle.std.specs.Option.{option_map};
ghost use Rattle.sheet.specs.Rules.{tables, well_formed};
ghost use Rattle.sheet.specs.Sheets.{tables_of, steps_at};

use crate::records::{Activity, Event, Lot};
use crate::sheet::Sheet;

impl<'a> Sheet<'a> {
    /// A sheet of these tables, which have to keep every rule: reading gives such tables.
    pub fn new(
        period: u16,
        events: &'a [Event],
        activities: &'a [Activity],
        lots: &'a [Lot],
        steps: &'a [u16],
    ) -> Sheet<'a>
        requires { well_formed (tables period events.now activities.now lots.now steps.now) ≡ true }
        ensures { tables_of result ≡ tables period events.now activities.now lots.now steps.now }
    {
        Sheet {
            period,
            events,
            activities,
            lots,
            steps,
        }
    }

    /// The steps of lot number `lot`, a stretch of the step table; none where there is no such lot.
    pub fn steps_of(&self, lot: usize) -> Option<&'a [u16]>
        ensures { option_map (λ x. x.now) result ≡ steps_at (tables_of self.now) lot }
    {
        self.lots.get(lot).map(|lot| lot.stretch(self.steps))
    }
}
