//! The slips that the console holds.
ghost use Rattle.std.specs.Prelude.{◌≡◌, ℕ, ◌<◌, ◌≤◌, Some, None, length, vec_len, vec_capacity, IfSome, slice_index_or};
ghost use Rattle.std.specs.Option.{IfNone};
ghost use Rattle.console.specs.Hands.{slips_line, place_for, without};

use board::slip::Slip;
use std::fmt;

/// The line that tells of the slips that are out, in the order in which they were had: the transfer of each.
// not a `Row`: where a slip is had it is told by both its numbers, so it has no one `Display`
#[derive(Clone, Copy)]
pub struct SlipsLine<'s>(pub &'s [Slip]);

impl fmt::Display for SlipsLine<'_> {
    ghost output = { λ s. Some (slips_line s.0.now) };

    fn fmt<W: fmt::Write>(&self, f: &mut fmt::Formatter<W>) -> fmt::Result {
        write!(f, "slips out:")?;
        for slip in self.0 {
            let activity = slip.activity();
            write!(f, " {activity}")?;
        }
        Ok(())
    }
}

/// The place of an activity's slip, the first one.
fn place(slips: &[Slip], activity: u16) -> Option<usize>
    ensures place { result ≡ place_for activity slips.now }
    ensures within { IfSome result (λ i. i < length slips.now) }
    ensures own { IfSome result (λ i. (d : Slip) → (slice_index_or slips.now i d).activity ≡ activity) }
{
    slips.iter().position(|slip| slip.activity() == activity)
}

/// Takes an activity's slip, the first one, out of those that are held, if there is one.
pub fn take(slips: &mut Vec<Slip>, activity: u16) -> Option<Slip>
    ensures own { IfSome result (λ slip. slip.activity ≡ activity) }
    ensures none { IfNone result (place_for activity slips.old.items ≡ None) }
    ensures some { IfSome result (λ _. (i : ℕ) × (place_for activity slips.old.items ≡ Some i)) }
    ensures left { slips.new.items ≡ without activity slips.old.items }
    ensures fewer { vec_len slips.new ≤ vec_len slips.old }
    ensures room { vec_capacity slips.old ≤ vec_capacity slips.new }
{
    let place = place(slips.as_slice(), activity)?;
    Some(slips.remove(place))
}
