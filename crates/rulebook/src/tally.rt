//! What a run over many answers comes to.
use std::fmt;

/// How many answers were tried, how many were wrong, and a checksum over all of them in their order.
#[derive(Clone, Copy, PartialEq, Eq, Default, Debug)]
pub struct Tally {
    answers: u32,
    wrong: u32,
    checksum: u64,
}

impl Tally {
    /// One answer more.
    pub fn count(&mut self, answer: u16, expected: u16) {
        self.answers = self.answers.wrapping_add(1);
        if answer != expected {
            self.wrong = self.wrong.wrapping_add(1);
        }
        self.checksum = self
            .checksum
            .wrapping_mul(31)
            .wrapping_add(u64::from(answer));
    }
}

impl fmt::Display for Tally {
    fn fmt<W: fmt::Write>(&self, f: &mut fmt::Formatter<W>) -> fmt::Result {
        write!(
            f,
            "{} answers, {} wrong, checksum {}",
            self.answers, self.wrong, self.checksum
        )
    }
}
