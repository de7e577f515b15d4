//! What a carry rule is, and what a measured one tells besides: two traits with their laws.
ghost use Rattle.std.specs.Prelude.{◌≡◌, ℕ, ◌≤◌};
ghost use Rattle.carry.specs.Laws.{LawfulRule, Remains};

/// The longest margin, lateness or allowance that the calls take, in minutes: a day.
pub const LONGEST: u16 = 1440;

/// A rule that says how much lateness an activity hands on, by its margin.
pub trait Carry {
    /// What the rule means: from a margin and a lateness to the lateness handed on.
    ghost hands: { Self → ℕ → ℕ → ℕ };

    /// The lateness handed on.
    fn carry(&self, margin: u16, lateness: u16) -> u16
        requires { (margin ≤ LONGEST) × (lateness ≤ LONGEST) }
        ensures { result ≡ hands self.now margin lateness };

    ghost lawful: { (rule : Self) → LawfulRule (hands rule) };
}

/// A carry rule that also tells how late a tail may be.
pub trait Measured: Carry {
    /// What remains: the greatest lateness up to 1,440 that hands on at most the allowance.
    fn remains(&self, margin: u16, allowance: u16) -> u16
        requires { (margin ≤ LONGEST) × (allowance ≤ LONGEST) }
        ensures { Remains (Self.Carry.hands self.now) margin allowance result };
}
