//! The console as a keeper: whoever writes at it orders the calls.
ghost use Rattle.std.specs.Prelude.{◌≡◌, ◌∷◌, [], ◌++◌, map, None, IfOk, OnOk};
ghost use Rattle.std.specs.Option.{IfSome};
ghost use Rattle.std.specs.Io.KnownBytes.{Appends};
ghost use Rattle.keeper.specs.Orders.{answered};
ghost use Rattle.keeper.specs.Notes.{call_noted};
ghost use Rattle.console.specs.Outcomes.{answer_line};
ghost use Rattle.console.specs.Answers.{outcome_of};
ghost use Rattle.console.specs.Hands.{slips_back};
ghost use Rattle.console.specs.Room.{HasRoom};
ghost use Rattle.console.specs.Turns.{Leads, Follows, asked_back, said_back};

use crate::answers::heard;
use crate::asked::Asked;
use crate::hand::{SlipsLine, take};
use crate::lines::{Lines, Said, read_line};
use crate::outcome::Outcome;
use board::board::Board;
use board::slip::Slip;
use keeper::order::{Answer, Noted, Order};
use keeper::tend::{Keeper, Shown};
use std::alloc::Global;
use std::fmt::Display;
use std::io;
use std::io::{BufRead, Write};

/// A console: the lines that are written at it, where it tells what comes of them, the calls that were performed, and the slips that it holds.
/// An error of input, output or memory ends its run and is kept.
pub struct Console<L, W> {
    heap: Global,
    lines: Lines<L>,
    out: W,
    past: Vec<Noted>,
    slips: Vec<Slip>,
    fault: Option<io::Error>,
}

#[tactic(auto, using(crate::proofs::Writing::appends_nothing))]
impl<L: BufRead, W: Write> Console<L, W> {
    /// The order of a call that was asked for, once there is room for its answer. There is none for a release without a slip, which is told.
    fn order(&mut self, asked: Asked) -> io::Result<Option<Order<Slip, ()>>>
        ensures leads { IfOk result (Leads self.old.slips.items asked) }
        ensures told { OnOk result (Appends (W.contents self.old.out) (W.contents self.new.out) (asked_back self.old.slips.items asked)) }
        ensures past { self.new.past.items ≡ self.old.past.items }
        ensures ready { IfOk result (λ order. IfSome order (λ _. HasRoom self.new.past × HasRoom self.new.slips)) }
    {
        self.past.reserve(1)?;
        self.slips.reserve(1)?;
        Ok(Some(match asked {
            Order::Report(event, minutes) => Order::Report(event, minutes),
            Order::Hold(a) => Order::Hold(a),
            Order::Release(a) => {
                let Some(slip) = take(&mut self.slips, a) else {
                    writeln!(self.out, "release {a}: no slip")?;
                    return Ok(None);
                };
                Order::Release(slip)
            }
            Order::Strike(a) => Order::Strike(a),
            Order::Clear(a) => Order::Clear(a),
            Order::Trial(a) => Order::Trial(a),
            Order::Plan => Order::Plan,
            Order::Reserve(()) => Order::Reserve(()),
        }))
    }

    /// The order that a line leads to which says this, once the console has told what it has to say of it; none, where there is no call to
    /// perform.
    fn follow(&mut self, said: Said) -> io::Result<Option<Order<Slip, ()>>>
        ensures follows { IfOk result (Follows self.old.slips.items said) }
        ensures told { OnOk result (Appends (W.contents self.old.out) (W.contents self.new.out) (said_back self.old.lines.count self.old.slips.items said)) }
        ensures past { self.new.past.items ≡ self.old.past.items }
        ensures ready { IfOk result (λ order. IfSome order (λ _. HasRoom self.new.past × HasRoom self.new.slips)) }
    {
        match said {
            Said::Nothing => Ok(None),
            Said::Call(asked) => self.order(asked),
            Said::NoCall => {
                let number = self.lines.number();
                writeln!(self.out, "line {number}: not a call")?;
                Ok(None)
            }
        }
    }

    /// The order of the next line that leads to one; none, where the input is at its end.
    fn next_order(&mut self) -> io::Result<Option<Order<Slip, ()>>>
        ensures past { self.new.past.items ≡ self.old.past.items }
        ensures ready { IfOk result (λ order. IfSome order (λ _. HasRoom self.new.past × HasRoom self.new.slips)) }
    {
        // an input may never end, and a run has to
        for _ in 0..u64::MAX {
            let Some(line) = self.lines.next_line()? else {
                return Ok(None);
            };
            let said = read_line(self.heap, line.as_slice())?;
            if let Some(order) = self.follow(said)? {
                return Ok(Some(order));
            }
        }
        Ok(None)
    }
}

impl<X: Display + Copy, L: BufRead, W: Write> Keeper<X, ()> for Console<L, W> {
    ghost log = { λ s. map call_noted s.past.items };

    ghost ready = { λ s. HasRoom s.past × HasRoom s.slips };

    fn next(&mut self) -> Option<Order<Slip, ()>> {
        if self.fault.is_some() {
            return None;
        }
        match self.next_order() {
            Ok(order) => order,
            Err(error) => {
                self.fault = Some(error);
                None
            }
        }
    }

    fn told(&mut self, answer: Answer<X>, shown: Shown)
        requires { HasRoom self.old.past × HasRoom self.old.slips }
        ensures log { map call_noted self.new.past.items ≡ map call_noted self.old.past.items ++ (answered answer ∷ []) }
        ensures told { self.new.fault ≡ None → IfSome (answer_line X.output (answered answer) (outcome_of answer shown.entry)) (Appends (W.contents self.old.out) (W.contents self.new.out)) }
    {
        let (noted, outcome) = heard(&mut self.slips, answer, shown);
        self.past.push_reserved(noted);
        if let Err(error) = writeln!(self.out, "{noted}:{outcome}") {
            self.fault = Some(error);
        }
    }
}

impl<L: BufRead + Drop, W: Write + Drop> Console<L, W> {
    /// A console where nothing was written yet.
    pub(crate) fn new(heap: Global, input: L, out: W) -> Console<L, W>
        ensures past { result.past.items ≡ [] }
        ensures slips { result.slips.items ≡ [] }
    {
        Console {
            heap,
            lines: Lines::new(heap, input),
            out,
            past: Vec::new(heap),
            slips: Vec::new(heap),
            fault: None,
        }
    }

    /// Tells which slips are out, takes the board out of use with them, and answers the error that ended the run, if one did.
    pub(crate) fn close(self, board: Board) -> io::Result<()> {
        let Console {
            heap: _,
            lines: _,
            mut out,
            past: _,
            slips,
            fault,
        } = self;
        let told = tell_slips(&mut out, slips.as_slice(), fault);
        board.close(slips);
        told
    }
}

/// Tells which slips are out, if any are, after a run that no error ended.
#[tactic(auto, using(crate::proofs::Writing::appends_nothing))]
fn tell_slips<W: Write>(out: &mut W, slips: &[Slip], fault: Option<io::Error>) -> io::Result<()>
    ensures { OnOk result (Appends (W.contents out.old) (W.contents out.new) (slips_back slips.now)) }
{
    if let Some(error) = fault {
        return Err(error);
    }
    if slips.is_empty() {
        return Ok(());
    }
    let line = SlipsLine(slips);
    writeln!(out, "{line}")
}
