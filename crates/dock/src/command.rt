//! The command line.
use crate::fault::DockFault;
use std::env;
use std::env::Args;

/// What the program is asked to do.
#[derive(Drop)]
pub enum Command {
    Help,
    Show {
        sheet: String,
    },
    Pack {
        listing: String,
        sheet: String,
    },
    Carry {
        rule: String,
        margin: String,
        lateness: String,
    },
    Remains {
        rule: String,
        margin: String,
        allowance: String,
    },
    Worst {
        sheet: String,
        /// The reports, and the rule's name after `--rule`.
        words: Args,
    },
    Keep {
        sheet: String,
        /// The options, each with its word, and the file of calls.
        words: Args,
    },
}

/// The command that the program's arguments say.
pub fn read(rt: &HostRuntime) -> Result<Command, DockFault> {
    let mut args = env::args(rt)?;
    let _program = args.next();
    let Some(name) = args.next() else {
        return Ok(Command::Help);
    };
    match name.as_str() {
        "--help" | "-h" | "help" => Ok(Command::Help),
        "show" | "pack" | "carry" | "remains" | "worst" | "keep" => {
            command_named(name.as_str(), args).ok_or(DockFault::Arguments(name))
        }
        _ => Err(DockFault::NoCommand(name)),
    }
}

/// The command of this name, where so many words follow it as it takes.
fn command_named(name: &str, mut words: Args) -> Option<Command> {
    let command = match name {
        "show" => Command::Show {
            sheet: words.next()?,
        },
        "pack" => Command::Pack {
            listing: words.next()?,
            sheet: words.next()?,
        },
        "carry" => Command::Carry {
            rule: words.next()?,
            margin: words.next()?,
            lateness: words.next()?,
        },
        "remains" => Command::Remains {
            rule: words.next()?,
            margin: words.next()?,
            allowance: words.next()?,
        },
        "worst" => {
            return Some(Command::Worst {
                sheet: words.next()?,
                words,
            });
        }
        "keep" => {
            return Some(Command::Keep {
                sheet: words.next()?,
                words,
            });
        }
        _ => return None,
    };
    words.next().is_none().then_some(command)
}
