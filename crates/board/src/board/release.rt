//! Releasing held transfers.
ghost use Rattle.std.specs.Prelude.{◌≡◌};
ghost use Rattle.board.specs.Ledger.{ledger_of, step, release, holds, release_answer};

use crate::board::Board;
use crate::board::marking::set_mark;
use crate::slip::{NotReleased, Slip};
use model::mark::Mark;

impl Board<'_> {
    /// Whether the slip is this board's and its transfer is held.
    fn is_good(&self, board: u16, activity: u16) -> bool
        ensures { result ≡ holds (ledger_of self.now) board activity }
    {
        let at = usize::from(activity);
        if board != self.number || at >= self.sheet.activities.len() {
            return false;
        }
        // by itself and not behind `&&`: what a cell holds has to be copied out before it is compared
        let mark = self.marks[at].mark;
        mark == Mark::Held
    }

    /// Takes the slip and unmarks its transfer; a slip that is refused comes back.
    pub fn release(&mut self, slip: Slip) -> Result<(), NotReleased>
        ensures answer { result ≡ release_answer (ledger_of self.old) slip }
        ensures after { ledger_of self.new ≡ step (ledger_of self.old) (release slip.board slip.activity) }
    {
        if !self.is_good(slip.board, slip.activity) {
            return Err(NotReleased { slip });
        }
        let Slip { board: _, activity } = slip;
        set_mark(&mut self.marks[usize::from(activity)], Mark::Unmarked);
        Ok(())
    }
}
