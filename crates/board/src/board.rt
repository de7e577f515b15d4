//! A board: a sheet with the noted delays and the marks of a day. Its ghost fields say what every board keeps.
ghost use Rattle.std.specs.Prelude.{◌≡◌, true};
ghost use Rattle.board.specs.Kept.{Timely, is_idle};

use sheet::sheet::Sheet;
use timetable::day::MarkRecord;

pub mod closing;
pub mod marking;
pub mod open;
pub mod planning;
pub mod published;
pub mod release;
pub mod report;
pub mod reserving;
pub mod trying;

/// The strike that a trial tries, beside the marks.
#[derive(Drop)]
pub struct TrialRecord {
    /// The transfer that counts as struck, while a trial is under way.
    pub(crate) trial: Option<u16>,
}

/// A sheet on a day. Its arrays have a place for each event and activity of the largest sheet.
#[derive(Drop)]
pub struct Board<'a> {
    pub(crate) sheet: Sheet<'a>,
    pub(crate) number: u16,
    // of a fixed size: a board holds no heap
    pub(crate) delays: [u16; 512],
    pub(crate) marks: [MarkRecord; 1024],
    pub(crate) trial: TrialRecord,
    ghost timely: { Timely sheet.period delays },
    ghost resting: { is_idle trial.trial ≡ true },
}
