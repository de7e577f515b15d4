//! Holding, striking and clearing transfers.
ghost use Rattle.std.specs.Prelude.{◌≡◌};
ghost use Rattle.board.specs.Ledger.{ledger_of, step, hold, strike, clear, hold_answer, marked_answer, strike_answer, clear_answer};

use crate::board::Board;
use crate::refusal::Refusal;
use crate::slip::Slip;
use model::mark::Mark;
use sheet::records::Kind;
use timetable::day::MarkRecord;

/// Changes the one mark record that is lent.
pub(crate) fn set_mark(cell: &mut MarkRecord, mark: Mark)
    ensures { cell.new.mark ≡ mark }
{
    cell.mark = mark;
}

impl Board<'_> {
    /// Why an activity is no transfer with this mark, by the first condition that fails; `otherwise` where it has another mark.
    fn marked(&self, activity: u16, mark: Mark, otherwise: Refusal) -> Result<(), Refusal>
        ensures { result ≡ marked_answer (ledger_of self.now) activity mark otherwise }
    {
        let at = usize::from(activity);
        if at >= self.sheet.activities.len() {
            return Err(Refusal::NoSuch);
        }
        let (kind, has) = (self.sheet.activities[at].kind, self.marks[at].mark);
        if kind != Kind::Transfer {
            return Err(Refusal::NoTransfer);
        }
        if has != mark {
            return Err(otherwise);
        }
        Ok(())
    }

    /// Why an activity cannot be held or struck.
    pub(crate) fn free(&self, activity: u16) -> Result<(), Refusal>
        ensures { result ≡ strike_answer (ledger_of self.now) activity }
    {
        self.marked(activity, Mark::Unmarked, Refusal::Marked)
    }

    /// Why an activity cannot be cleared.
    fn struck(&self, activity: u16) -> Result<(), Refusal>
        ensures { result ≡ clear_answer (ledger_of self.now) activity }
    {
        self.marked(activity, Mark::Struck, Refusal::NotStruck)
    }

    /// Marks an unmarked transfer as held, and gives the slip that releases it.
    pub fn hold(&mut self, activity: u16) -> Result<Slip, Refusal>
        ensures answer { result ≡ hold_answer (ledger_of self.old) activity }
        ensures after { ledger_of self.new ≡ step (ledger_of self.old) (hold activity) }
    {
        self.free(activity)?;
        set_mark(&mut self.marks[usize::from(activity)], Mark::Held);
        Ok(Slip {
            board: self.number,
            activity,
        })
    }

    /// Marks an unmarked transfer as struck.
    pub fn strike(&mut self, activity: u16) -> Result<(), Refusal>
        ensures answer { result ≡ strike_answer (ledger_of self.old) activity }
        ensures after { ledger_of self.new ≡ step (ledger_of self.old) (strike activity) }
    {
        self.free(activity)?;
        set_mark(&mut self.marks[usize::from(activity)], Mark::Struck);
        Ok(())
    }

    /// Unmarks a struck transfer.
    // beside `strike`: a common function would take both marks, both tests and both calls of the ledger
    pub fn clear(&mut self, activity: u16) -> Result<(), Refusal>
        ensures answer { result ≡ clear_answer (ledger_of self.old) activity }
        ensures after { ledger_of self.new ≡ step (ledger_of self.old) (clear activity) }
    {
        self.struck(activity)?;
        set_mark(&mut self.marks[usize::from(activity)], Mark::Unmarked);
        Ok(())
    }
}
