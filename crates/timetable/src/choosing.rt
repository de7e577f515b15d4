//! Choices: which of the transfers that are open wait.
ghost use Rattle.std.specs.Prelude.{◌≡◌, ℕ, ◌<◌, Bool, true, length, ◌==◌, slice_index};

/// Says of each activity that a choice decides whether it waits.
pub trait Choosing {
    /// The choice.
    ghost choice: { Self → ℕ → Bool };

    /// The activities of which it can be asked.
    ghost knows: { Self → ℕ → Type 0 };

    fn waits(&self, a: usize) -> bool
        requires { knows self.now a }
        ensures { result ≡ choice self.now a };
}

/// Every open transfer waits.
#[derive(Clone, Copy)]
pub struct AllWait;

impl Choosing for AllWait {
    ghost choice = { λ s a. true };

    ghost knows = { λ s a. Unit {0} };

    fn waits(&self, _a: usize) -> bool {
        true
    }
}

/// A table with a byte for each activity: 0 where it waits, and 1 where it goes.
// bytes and not bools: what a plan writes for its callers is a byte an activity
#[derive(Clone, Copy)]
pub struct GoneTable<'a> {
    pub gone: &'a [u8],
}

impl<'a> Choosing for GoneTable<'a> {
    ghost choice = { λ s a. (slice_index s.gone.now a == 0) };

    ghost knows = { λ s a. a < length s.gone.now };

    fn waits(&self, a: usize) -> bool {
        self.gone[a] == 0
    }
}
