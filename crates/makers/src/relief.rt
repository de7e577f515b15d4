//! Relief: a carry rule with a parameter. A relief truck leaves in time, so that little is ever handed on.
ghost use Rattle.makers.specs.Relieved.{relieved};
ghost use Rattle.std.proofs.Common.{rules};

use carry::rule::{Carry, LONGEST, Measured};

/// Hands on the lateness less the margin, and never more than `most` minutes.
#[derive(Clone, Copy, PartialEq, Eq, Debug)]
pub struct Relief {
    pub most: u16,
}

impl Carry for Relief {
    ghost hands = { λ rule. relieved rule.most };

    ghost lawful = { Prim.search rules };

    fn carry(&self, margin: u16, lateness: u16) -> u16 {
        lateness.saturating_sub(margin).min(self.most)
    }
}

impl Measured for Relief {
    fn remains(&self, margin: u16, allowance: u16) -> u16 {
        if allowance < self.most {
            (margin + allowance).min(LONGEST)
        } else {
            LONGEST
        }
    }
}
