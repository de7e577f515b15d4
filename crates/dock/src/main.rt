//! The dock program: reads, checks, prints and writes sheets, answers for the carry rules, looks ahead of delays, and keeps a board.
#![tactic(auto)]

use command::Command;
use fault::DockFault;
use std::process::ExitCode;

mod command;
mod fault;
mod files;
mod keep;
mod pack;
mod rules;
mod show;
mod worst;

const USAGE: &str =
    "dock: reads, checks, prints and writes sheets, answers for the carry rules, looks ahead of delays,
and keeps a board

  dock show SHEET                      print the sheet as a listing, or why it is refused
  dock pack LISTING SHEET              make a sheet from a listing
  dock carry RULE MARGIN LATENESS      print how much of the lateness is handed on
  dock remains RULE MARGIN ALLOWANCE   print the greatest lateness up to 1440 of which at most
                                       the allowance is handed on
  dock worst SHEET [--rule RULE] EVENT=MINUTES..
                                       print what these delays lead to when every transfer waits
  dock keep SHEET [--rule RULE] [--tariff TARIFF] [--number NUMBER] [CALLS]
                                       keep a board by the calls of a file, or by those that are typed
  dock --help                          print this

RULE is one of
  deduct   the lateness less the margin is handed on
  gate     up to the margin nothing is handed on, above it the whole lateness
  share    the margin is the percentage of the lateness that is regained, and counts as 100 where
           it is more; the rest is handed on, rounded down
MARGIN, LATENESS and ALLOWANCE are whole numbers from 0 to 1440, in decimal.

'worst' takes any number of delays, none too: EVENT is an event's number, and MINUTES is at most
the sheet's period. A later delay of an event replaces an earlier one. The rule may be named
anywhere after SHEET, and is deduct otherwise. Three lines are printed:
  lateness 10 8 7 8 6   how late each event is, in minutes
  live 0 1 2 3          the activities that hand lateness on, by number
  clear                 or 'meet E': delays meet at event E, the lowest such event; or else
                        'tangled L': lot L, the lowest such lot, has a live transfer on its way,
                        later a step that is not live, and then a live transfer or a late end

'keep' opens a board on the sheet and performs calls, one a line, from the file CALLS, or from the
standard input where none is named. It prints each answer as its line comes. The calls are
  report EVENT MINUTES  the event is delayed by so many minutes, at most the period
  hold TRANSFER         the transfer waits; prints a slip with the board's number and its own
  release TRANSFER      spends the transfer's slip; 'no slip' where none is held
  strike TRANSFER       the transfer goes
  clear TRANSFER        it is struck no more
  trial TRANSFER        what a plan would cost with this transfer struck
  plan                  the toll, how many transfers go, how late each event is, and for each
                        activity 1 where it goes and 0 otherwise
  reserve               the greatest delay that each event may have alone
Blank lines and lines that begin with '#' are passed over, and 'line 4: not a call' tells that line 4
is none of these. 'report 0 61: refused 10' tells why a call is refused; it changes nothing, and the
run goes on: 9 no such event or activity, 10 minutes above the period, 11 no transfer, 12 held or
struck already, 13 not struck, 16 delays meet at the event named, 17 the lot named is tangled. At the
end 'slips out: 1 4' names the transfers that are still held. The options may stand anywhere after
SHEET. RULE is deduct where none is named, and NUMBER, the board's, from 0 to 65535, is 0.
TARIFF is one of
  parcel-minutes   each parcel counts its minutes; the default
  ranked           express parcel-minutes count first, ordinary ones between equals: (0, 460)

A sheet that is refused prints one line, as 'refused 5 section 3 record 2 byte 34', and a line of
a listing that cannot be read prints its number and what is wrong, as 'line 7: ..'. A delay of an
event that the sheet does not have prints 'refused 9', and one above the period 'refused 10'. Then,
and where a file cannot be read or written or an argument is wrong, the status is 1 and nothing is
written.";

fn main(rt: HostRuntime) -> ExitCode {
    match run(&rt) {
        Ok(()) => ExitCode::SUCCESS,
        Err(fault) => {
            fault::tell(&rt, fault);
            ExitCode::FAILURE
        }
    }
}

fn run(rt: &HostRuntime) -> Result<(), DockFault> {
    match command::read(rt)? {
        Command::Help => Ok(println!(rt; "{USAGE}")?),
        Command::Show { sheet } => show::run(rt, sheet),
        Command::Pack { listing, sheet } => pack::run(rt, listing, sheet),
        Command::Carry {
            rule,
            margin,
            lateness,
        } => rules::carry(rt, rule, margin, lateness),
        Command::Remains {
            rule,
            margin,
            allowance,
        } => rules::remains(rt, rule, margin, allowance),
        Command::Worst { sheet, words } => worst::run(rt, sheet, words),
        Command::Keep { sheet, words } => keep::run(rt, sheet, words),
    }
}
