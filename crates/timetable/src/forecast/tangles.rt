//! Tangled lots.
ghost use Rattle.std.specs.Prelude.{◌≡◌, not, ◌&&◌, ◌||◌, length};
ghost use Rattle.model.specs.Tangles.{tangled};
ghost use Rattle.timetable.specs.Days.{yard_of};
ghost use Rattle.timetable.specs.Found.{found_first};
ghost use Rattle.timetable.specs.Parts.{Walks, knotted};

use crate::forecast::Forecast;
use carry::rule::Carry;
use sheet::records::Kind;

/// What a lot's way has shown so far.
#[derive(Clone, Copy)]
struct Passed {
    /// a live transfer
    hot: bool,
    /// after it a step that is not live
    gap: bool,
    /// after that a live transfer again
    again: bool,
}

impl Passed {
    /// What it has shown with one step more.
    fn pass(self, live: bool, hot: bool) -> Passed
        ensures hot { result.hot ≡ (self.hot || hot) }
        ensures gap { result.gap ≡ (self.gap || (self.hot && not live)) }
        ensures again { result.again ≡ (self.again || (self.gap && hot)) }
    {
        Passed {
            hot: self.hot || hot,
            gap: self.gap || self.hot && !live,
            again: self.again || self.gap && hot,
        }
    }

    /// Whether a way that has shown so much is a tangle, if its end is late or not.
    fn tells(self, late: bool) -> bool
        ensures { result ≡ (self.again || (self.gap && late)) }
    {
        self.again || self.gap && late
    }
}

impl<R: Carry> Forecast<'_, R> {
    /// Whether a lot with these steps is tangled.
    pub fn is_tangled(&self, steps: &[u16]) -> bool
        requires { Walks self.now.day steps.now }
        ensures { result ≡ knotted (yard_of (R.hands self.now.rule.now) self.now.day) steps.now }
    {
        // written out: of a derived `Default` the scan's beginning was not found to follow
        let mut passed = Passed {
            hot: false,
            gap: false,
            again: false,
        };
        for step in steps {
            let a = usize::from(*step);
            let live = self.is_live(a);
            let transfer = self.day.sheet.activities[a].kind == Kind::Transfer;
            passed = passed.pass(live, live && transfer);
        }
        let late_end = self.worst[self.day.end_of(steps)] > 0;
        self.day.is_unstruck(steps) && passed.tells(late_end)
    }

    /// The first tangled lot.
    pub fn first_tangled(&self) -> Option<usize>
        ensures { result ≡ found_first (length self.now.day.sheet.lots.now) (tangled (yard_of (R.hands self.now.rule.now) self.now.day)) }
    {
        self.day
            .sheet
            .lots
            .iter()
            .position(|lot| self.is_tangled(self.day.steps_of(*lot)))
    }
}
