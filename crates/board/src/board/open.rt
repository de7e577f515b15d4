//! Opening a board.
ghost use Rattle.std.specs.Prelude.{◌≡◌};
ghost use Rattle.sheet.specs.Sheets.{tables_of};
ghost use Rattle.board.specs.Ledger.{ledger_of, opened};

use crate::board::{Board, TrialRecord};
use model::mark::Mark;
use sheet::sheet::Sheet;
use timetable::day::MarkRecord;

impl<'a> Board<'a> {
    /// A board on a sheet, under a number that no other board has which is in use or has slips out. Nothing is delayed or marked.
    pub fn open(sheet: Sheet<'a>, number: u16) -> Board<'a>
        ensures { ledger_of result ≡ opened (tables_of sheet.entry) number }
    {
        Board {
            sheet,
            number,
            delays: [0; 512],
            marks: [MarkRecord {
                mark: Mark::Unmarked,
            }; 1024],
            trial: TrialRecord { trial: None },
        }
    }
}
