//! What an answer is told as, and what is kept of it.
ghost use Rattle.std.specs.Prelude.{◌≡◌, ◌++◌};
ghost use Rattle.keeper.specs.Orders.{answered};
ghost use Rattle.keeper.specs.Notes.{call_noted};
ghost use Rattle.console.specs.Answers.{outcome_done, outcome_of, slips_in};
ghost use Rattle.console.specs.Room.{HasRoom};

use crate::outcome::Outcome;
use board::refusal::Refusal;
use board::slip::{NotReleased, Slip};
use keeper::order::{Answer, Noted};
use keeper::tend::Shown;

/// What came of a call that is done or refused.
fn done<'s, X>(answer: Result<(), Refusal>) -> Outcome<'s, X>
    ensures { result ≡ outcome_done answer }
{
    // map_or_else is not covered here: its result names a lifetime that neither function names
    match answer {
        Ok(()) => Outcome::Done,
        Err(refusal) => Outcome::Refused(refusal),
    }
}

/// The call that an answer answers, and what came of it; a slip goes to those that are held.
pub(crate) fn heard<'s, X>(
    slips: &mut Vec<Slip>,
    answer: Answer<X>,
    shown: Shown<'s>,
) -> (Noted, Outcome<'s, X>)
    requires { HasRoom slips.old }
    ensures noted { call_noted result.0 ≡ answered answer }
    ensures outcome { result.1 ≡ outcome_of answer shown.entry }
    ensures slips { slips.new.items ≡ slips.old.items ++ slips_in answer }
{
    match answer {
        Answer::Reported(event, minutes, answer) => (Noted::Report(event, minutes), done(answer)),
        Answer::Held(a, Ok(slip)) => {
            let board = slip.board();
            let activity = slip.activity();
            slips.push_reserved(slip);
            (Noted::Hold(a), Outcome::Slip(board, activity))
        }
        Answer::Held(a, Err(refusal)) => (Noted::Hold(a), Outcome::Refused(refusal)),
        Answer::Released(board, a, Ok(())) => (Noted::Release((board, a)), Outcome::Done),
        Answer::Released(_, _, Err(NotReleased { slip })) => {
            let noted = Noted::Release((slip.board(), slip.activity()));
            slips.push_reserved(slip);
            (noted, Outcome::NotReleased)
        }
        Answer::Struck(a, answer) => (Noted::Strike(a), done(answer)),
        Answer::Cleared(a, answer) => (Noted::Clear(a), done(answer)),
        Answer::Tried(a, Ok(toll)) => (Noted::Trial(a), Outcome::Toll(toll)),
        Answer::Tried(a, Err(refusal)) => (Noted::Trial(a), Outcome::Refused(refusal)),
        Answer::Planned(Ok((toll, gone))) => (
            Noted::Plan,
            Outcome::Plan(toll, gone, shown.late, shown.gone),
        ),
        Answer::Planned(Err(refusal)) => (Noted::Plan, Outcome::Refused(refusal)),
        Answer::Reserved(Ok(())) => (Noted::Reserve(()), Outcome::Reserves(shown.reserves)),
        Answer::Reserved(Err(refusal)) => (Noted::Reserve(()), Outcome::Refused(refusal)),
    }
}
