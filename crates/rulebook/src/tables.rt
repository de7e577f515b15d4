//! All 1,441 × 1,441 answers of a rule's calls beside the reckoned ones.
ghost use Rattle.std.specs.Prelude.{ℕ, ◌≤◌};

use crate::reckoner::Growing;
use crate::tally::Tally;
use carry::rule::{Carry, LONGEST, Measured};

/// How many latenesses, margins and allowances there are: 0 to 1,440 minutes.
const MINUTES: usize = LONGEST as usize + 1;

/// A cell for each of them.
type Row = [u16; MINUTES];

/// What is handed on at every lateness under one margin.
fn handed_row<G: Growing>(margin: u16) -> Row {
    let mut growing = G::new(margin);
    let mut row = [0; MINUTES];
    for cell in row.iter_mut() {
        *cell = growing.handed();
        growing.pass_minute();
    }
    row
}

/// The greatest lateness that hands on at most each allowance: first by what is handed on exactly, then of all below.
fn greatest_row<G: Growing>(margin: u16) -> Row {
    let row = handed_row::<G>(margin);
    let mut greatest = [0; MINUTES];
    for (lateness, handed) in (0..=LONGEST).zip(row.iter()) {
        if let Some(cell) = greatest.get_mut(usize::from(*handed)) {
            *cell = lateness;
        }
    }
    let mut top = 0;
    for cell in greatest.iter_mut() {
        top = top.max(*cell);
        *cell = top;
    }
    greatest
}

/// Every answer of a call by margin and minutes, beside the row that is expected under each margin.
fn try_call<E: Fn(u16) -> Row, C: Fn(u16, u16) -> u16>(expected: E, call: C) -> Tally
    requires rows { E.IsAlwaysCallable expected }
    requires calls { (margin minutes : ℕ) → margin ≤ LONGEST → minutes ≤ LONGEST → C.pre call margin minutes }
{
    let mut tally = Tally::default();
    for margin in 0..=LONGEST {
        for (minutes, answer) in expected(margin).iter().enumerate() {
            // an index below 1,441, so `as` is proved to lose no bits
            tally.count(call(margin, minutes as u16), *answer);
        }
    }
    tally
}

/// Every answer of the carry call.
pub fn try_carry<G: Growing, R: Carry>(rule: &R) -> Tally {
    try_call(
        |margin| handed_row::<G>(margin),
        |margin, lateness| rule.carry(margin, lateness),
    )
}

/// Every answer of the remains call.
pub fn try_remains<G: Growing, R: Measured>(rule: &R) -> Tally {
    try_call(
        |margin| greatest_row::<G>(margin),
        |margin, allowance| rule.remains(margin, allowance),
    )
}
