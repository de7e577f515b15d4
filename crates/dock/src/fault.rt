//! What can go wrong, and how it is told.
use desk::fault::DeskFault;
use desk::minutes::Argument;
use std::alloc::{AllocError, AllocFailed};
use std::{fmt, io};

/// Why a command is not done.
#[derive(Drop)]
pub enum DockFault {
    NoCommand(String),
    /// A command has too few or too many arguments.
    Arguments(String),
    /// A file cannot be read or written.
    File(String, io::Error),
    NoRule(String),
    /// No rule is named after this word.
    Unnamed(String),
    NoTariff(String),
    /// A word is no board's number.
    NoNumber(String),
    /// An option has no word after it.
    Bare(String),
    NoOption(String),
    /// A second file of calls.
    SecondFile(String),
    /// A word is no EVENT=MINUTES.
    NoReport(String),
    /// An argument is no decimal from 0 to 1,440.
    NoMinutes(Argument),
    Desk(DeskFault),
    Other(io::Error),
}

impl From<DeskFault> for DockFault {
    fn from(fault: DeskFault) -> DockFault {
        DockFault::Desk(fault)
    }
}

impl From<Argument> for DockFault {
    fn from(argument: Argument) -> DockFault {
        DockFault::NoMinutes(argument)
    }
}

impl From<AllocError> for DockFault {
    fn from(_error: AllocError) -> DockFault {
        DockFault::Desk(DeskFault::Memory)
    }
}

impl<T: Drop> From<AllocFailed<T>> for DockFault {
    fn from(_refused: AllocFailed<T>) -> DockFault {
        DockFault::Desk(DeskFault::Memory)
    }
}

impl From<io::Error> for DockFault {
    fn from(error: io::Error) -> DockFault {
        DockFault::Other(error)
    }
}

impl fmt::Display for DockFault {
    fn fmt<W: fmt::Write>(&self, f: &mut fmt::Formatter<W>) -> fmt::Result {
        match self {
            DockFault::Desk(DeskFault::Refused(fault)) => write!(f, "{fault}"),
            DockFault::Desk(DeskFault::Line(line)) => write!(f, "{line}"),
            DockFault::Desk(DeskFault::Unseen(fault)) => write!(f, "{fault}"),
            DockFault::Desk(DeskFault::Memory) => write!(f, "out of memory"),
            DockFault::NoCommand(name) => {
                write!(f, "no such command: '{name}'; see dock --help")
            }
            DockFault::Arguments(name) => write!(
                f,
                "too few or too many arguments for '{name}'; see dock --help"
            ),
            DockFault::File(name, error) => write!(f, "{name}: {error}"),
            DockFault::NoRule(name) => write!(
                f,
                "no such rule: '{name}'; the rules are deduct, gate and share"
            ),
            DockFault::Unnamed(word) => write!(
                f,
                "no rule is named after '{word}'; the rules are deduct, gate and share"
            ),
            DockFault::NoTariff(name) => write!(
                f,
                "no such tariff: '{name}'; the tariffs are parcel-minutes and ranked"
            ),
            DockFault::NoNumber(word) => write!(
                f,
                "no board's number: '{word}'; it is a whole number from 0 to 65535, in decimal"
            ),
            DockFault::Bare(option) => {
                write!(f, "'{option}' has no word after it; see dock --help")
            }
            DockFault::NoOption(word) => write!(f, "no such option: '{word}'; see dock --help"),
            DockFault::SecondFile(name) => write!(
                f,
                "a second file of calls: '{name}'; 'keep' takes one at most"
            ),
            DockFault::NoReport(word) => write!(
                f,
                "no report: '{word}'; a report is EVENT=MINUTES, two whole numbers up to 65535, in decimal"
            ),
            DockFault::NoMinutes(argument) => write!(
                f,
                "the {argument} has to be a whole number from 0 to 1440, in decimal"
            ),
            DockFault::Other(error) => write!(f, "{error}"),
        }
    }
}

/// Tells a refusal or a bad line on the output, where other tools read it, and anything else on the error output.
pub fn tell(rt: &HostRuntime, fault: DockFault) {
    let _ = match fault {
        DockFault::Desk(DeskFault::Refused(_) | DeskFault::Line(_) | DeskFault::Unseen(_)) => {
            println!(rt; "{fault}")
        }
        _ => eprintln!(rt; "dock: {fault}"),
    };
}
