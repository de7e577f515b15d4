//! Reports.
ghost use Rattle.std.specs.Prelude.{◌≡◌};
ghost use Rattle.board.specs.Ledger.{ledger_of, report, report_answer, step};

use crate::board::Board;
use crate::refusal::Refusal;

impl Board<'_> {
    /// Replaces the noted delay of an event by so many minutes.
    pub fn report(&mut self, event: u16, minutes: u16) -> Result<(), Refusal>
        ensures answer { result ≡ report_answer (ledger_of self.old) event minutes }
        ensures after { ledger_of self.new ≡ step (ledger_of self.old) (report event minutes) }
    {
        if usize::from(event) >= self.sheet.events.len() {
            return Err(Refusal::NoSuch);
        }
        if minutes > self.sheet.period {
            return Err(Refusal::TooLong);
        }
        self.delays[usize::from(event)] = minutes;
        Ok(())
    }
}
