//! Reports as a person writes them.
ghost use Rattle.std.specs.Prelude.{◌≡◌};
ghost use Rattle.desk.specs.Reported.{report_of};

use outlook::report::Report;
use words::number::number;

/// The report of a word, EVENT=MINUTES in two decimals of at most 65,535.
pub fn report(word: &str) -> Option<Report>
    ensures { result ≡ report_of word.now }
{
    let (event, minutes) = word.split_once('=')?;
    Some(Report {
        event: number(event)?,
        minutes: number(minutes)?,
    })
}
