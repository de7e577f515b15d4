//! Share: the margin is the percentage of a lateness that is regained.
ghost use Rattle.std.specs.Prelude.{◌≡◌, ◌-◌};
ghost use Rattle.carry.specs.Handed.{shared};
ghost use Rattle.std.proofs.Common.{arith};
ghost use Rattle.carry.specs.Hundredths.{part_rising, part_le};

use crate::rule::{Carry, LONGEST, Measured};

/// Hands on what is left of the lateness when the margin's hundredths are taken off, rounded down.
#[derive(Clone, Copy, PartialEq, Eq, Debug)]
pub struct Share;

/// How many hundredths are handed on: a margin above 100 counts as 100.
fn kept_percent(margin: u16) -> u32
    ensures { result ≡ 100 - margin }
{
    u32::from(100u16.saturating_sub(margin))
}

impl Carry for Share {
    ghost hands = { λ rule. shared };

    ghost lawful = { λ rule.
        record {
          punctual = λ margin. omega arith;
          rising = λ margin. part_rising (100 - margin);
          no_growth = λ margin lateness. part_le (100 - margin) lateness (omega arith);
        } };

    fn carry(&self, margin: u16, lateness: u16) -> u16 {
        // no more than came, so `as` is proved to lose no bits; `try_from` would have a case that never comes
        (u32::from(lateness) * kept_percent(margin) / 100) as u16
    }
}

impl Measured for Share {
    fn remains(&self, margin: u16, allowance: u16) -> u16 {
        let percent = kept_percent(margin);
        if percent == 0 {
            return LONGEST;
        }
        // less than one minute above the allowance, in hundredths
        let hundredths = u32::from(allowance) * 100 + 99;
        (hundredths / percent).min(u32::from(LONGEST)) as u16
    }
}
