//! How the activities of a day stand.
ghost use Rattle.std.specs.Prelude.{◌≡◌, ℕ, ◌<◌, ◌≤◌, length};
ghost use Rattle.model.specs.Yard.{struck};
ghost use Rattle.timetable.specs.Days.{stance_of, stance_at, stance_on, yard_of};

use crate::day::{Day, MarkRecord};
use model::mark::Mark;
use sheet::records::{Activity, Kind};

/// How an activity stands: it always binds, the choice decides, or it goes.
#[derive(Clone, Copy, PartialEq, Eq, Debug)]
pub enum Stance {
    Bound,
    Open,
    Gone,
}

/// How an activity of this kind stands under this mark, and on trial or not.
fn stance_of(kind: Kind, mark: Mark, on_trial: bool) -> Stance
    ensures { result ≡ stance_of kind mark on_trial }
{
    match (kind, mark) {
        (Kind::Drive | Kind::Stand, _) => Stance::Bound,
        (Kind::Transfer, Mark::Struck) => Stance::Gone,
        (Kind::Transfer, _) if on_trial => Stance::Gone,
        (Kind::Transfer, Mark::Held) => Stance::Bound,
        (Kind::Transfer, Mark::Unmarked) => Stance::Open,
    }
}

/// How activity `a` stands under these marks and with this trial.
pub fn stands(activities: &[Activity], marks: &[MarkRecord], trial: Option<u16>, a: usize) -> Stance
    requires within { a < length activities.now }
    requires marked { length activities.now ≤ length marks.now }
    ensures { result ≡ stance_at activities.now marks.now trial a }
{
    let on_trial = trial.is_some_and(|struck| usize::from(struck) == a);
    stance_of(activities[a].kind, marks[a].mark, on_trial)
}

impl Day<'_> {
    /// How activity `a` stands.
    pub fn stance(&self, a: usize) -> Stance
        requires { a < length self.now.sheet.activities.now }
        ensures { result ≡ stance_on self.now a }
    {
        stands(self.sheet.activities, self.marks, self.trial, a)
    }

    /// Whether activity `a` is a struck transfer.
    pub fn is_struck(&self, a: usize) -> bool
        requires { a < length self.now.sheet.activities.now }
        ensures { (rule : ℕ → ℕ → ℕ) → result ≡ struck (yard_of rule self.now) a }
    {
        self.stance(a) == Stance::Gone
    }
}
