//! A sheet on a day, as lent slices: what the planner reads. Its ghost fields say what every day keeps.
ghost use Rattle.std.specs.Prelude.{ℕ, ◌<◌, ◌≤◌, length, slice_index};

use model::mark::Mark;
use sheet::sheet::Sheet;

pub mod lateness;
pub mod stance;
pub mod steps;

/// What is kept of an activity's marking.
#[derive(Clone, Copy, PartialEq, Eq, Debug)]
pub struct MarkRecord {
    pub mark: Mark,
}

/// A sheet with the noted delay of each event and the mark of each activity.
#[derive(Clone, Copy)]
pub struct Day<'a> {
    pub sheet: Sheet<'a>,
    /// By the number of the event.
    pub delays: &'a [u16],
    /// By the number of the activity.
    pub marks: &'a [MarkRecord],
    /// A transfer that counts as struck beside the marks: one on trial.
    pub trial: Option<u16>,
    pub ghost delays_for_all: { length sheet.events.now ≤ length delays.now },
    pub ghost marks_for_all: { length sheet.activities.now ≤ length marks.now },
    pub ghost timely: { (e : ℕ) → e < length sheet.events.now → slice_index delays.now e ≤ sheet.period },
}
