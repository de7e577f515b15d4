//! Deduct: the margin swallows as many minutes as it has.
ghost use Rattle.carry.specs.Handed.{deducted};
ghost use Rattle.std.proofs.Common.{rules};

use crate::rule::{Carry, LONGEST, Measured};

/// Hands on the lateness less the margin.
#[derive(Clone, Copy, PartialEq, Eq, Debug)]
pub struct Deduct;

impl Carry for Deduct {
    ghost hands = { λ rule. deducted };

    ghost lawful = { Prim.search rules };

    fn carry(&self, margin: u16, lateness: u16) -> u16 {
        lateness.saturating_sub(margin)
    }
}

impl Measured for Deduct {
    fn remains(&self, margin: u16, allowance: u16) -> u16 {
        (margin + allowance).min(LONGEST)
    }
}
