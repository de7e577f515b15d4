//! Gate: the margin swallows a lateness whole or not at all.
ghost use Rattle.carry.specs.Handed.{gated};
ghost use Rattle.std.proofs.Common.{rules};

use crate::rule::{Carry, Measured};

/// Hands on nothing up to the margin, and above it the whole lateness.
#[derive(Clone, Copy, PartialEq, Eq, Debug)]
pub struct Gate;

impl Carry for Gate {
    ghost hands = { λ rule. gated };

    ghost lawful = { Prim.search rules };

    fn carry(&self, margin: u16, lateness: u16) -> u16 {
        if lateness <= margin { 0 } else { lateness }
    }
}

impl Measured for Gate {
    fn remains(&self, margin: u16, allowance: u16) -> u16 {
        margin.max(allowance)
    }
}
