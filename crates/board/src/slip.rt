//! Hold slips.
ghost use Rattle.std.specs.Prelude.{◌≡◌};
ghost use Rattle.board.specs.Refusals.{not_released};

/// The right to release one held transfer of one board. It cannot be copied or let go: it goes to `release`.
pub struct Slip {
    pub(crate) board: u16,
    pub(crate) activity: u16,
}

/// A release that was refused, with the slip.
pub struct NotReleased {
    pub slip: Slip,
}

impl NotReleased {
    /// The number of the refusal.
    pub fn number() -> u8
        ensures { result ≡ not_released }
    {
        14
    }
}

impl Slip {
    /// The number of the board that gave it.
    pub fn board(&self) -> u16
        ensures { result ≡ self.now.board }
    {
        self.board
    }

    /// The number of the transfer that it releases.
    pub fn activity(&self) -> u16
        ensures { result ≡ self.now.activity }
    {
        self.activity
    }
}
