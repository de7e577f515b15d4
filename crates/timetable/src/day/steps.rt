//! A lot's steps as one part of the step table, which goes by itself to what is asked of it.
ghost use Rattle.std.specs.Prelude.{◌≡◌, ℕ, ◌<◌, length, slice_index};
ghost use Rattle.sheet.specs.Rules.{stretch};
ghost use Rattle.model.specs.Lots.{finish, unstruck, over};
ghost use Rattle.timetable.specs.Days.{yard_of};
ghost use Rattle.timetable.specs.Parts.{LotOf, Walks, missed_by};

use crate::day::Day;
use sheet::records::Lot;

impl<'a> Day<'a> {
    /// The steps of a lot.
    pub fn steps_of(&self, lot: Lot) -> &'a [u16]
        requires { LotOf self.now lot }
        ensures answer { result.now ≡ stretch lot self.now.sheet.steps.now }
        ensures walks { Walks self.now result.now }
    {
        lot.stretch(self.sheet.steps)
    }

    /// Where these steps end: at the head of the last one.
    // the steps come by themselves, a part of the step table that is lent on, and not with the lot in a type
    pub fn end_of(&self, steps: &[u16]) -> usize
        requires { Walks self.now steps.now }
        ensures answer { (rule : ℕ → ℕ → ℕ) → result ≡ finish (yard_of rule self.now) steps.now }
        ensures within { result < length self.now.sheet.events.now }
    {
        let last = usize::from(steps[steps.len() - 1]);
        usize::from(self.sheet.activities[last].head)
    }

    /// Whether none of these steps is a struck transfer.
    pub fn is_unstruck(&self, steps: &[u16]) -> bool
        requires { Walks self.now steps.now }
        ensures { (rule : ℕ → ℕ → ℕ) → result ≡ unstruck (yard_of rule self.now) steps.now }
    {
        !steps.iter().any(|step| self.is_struck(usize::from(*step)))
    }
}

/// Whether one of these steps is activity `a`.
pub fn is_over(steps: &[u16], a: usize) -> bool
    ensures { result ≡ over a steps.now }
{
    steps.iter().any(|step| usize::from(*step) == a)
}

/// Whether one of these steps goes: its byte in the table is not 0.
pub fn is_missed(gone: &[u8], steps: &[u16]) -> bool
    requires { (k : ℕ) → k < length steps.now → slice_index steps.now k < length gone.now }
    ensures { result ≡ missed_by gone.now steps.now }
{
    steps.iter().any(|step| gone[usize::from(*step)] != 0)
}
