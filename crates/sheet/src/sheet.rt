//! A sheet over tables that it borrows; its ghost field says that they keep every rule of a sheet.
ghost use Rattle.std.specs.Prelude.{◌≡◌, true};
ghost use Rattle.sheet.specs.Rules.{tables, well_formed};

use crate::records::{Activity, Event, Lot};

pub mod parts;

/// The period and the four tables. One can be made only of tables that are well formed.
#[derive(Clone, Copy)]
pub struct Sheet<'a> {
    /// The minutes after which a missed connection runs again.
    pub period: u16,
    pub events: &'a [Event],
    pub activities: &'a [Activity],
    pub lots: &'a [Lot],
    /// The lots' steps, one lot's stretch after another's: numbers of activities.
    pub steps: &'a [u16],
    ghost kept: { well_formed (tables period events.now activities.now lots.now steps.now) ≡ true },
}
