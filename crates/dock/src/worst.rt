//! `dock worst`: prints what reported delays lead to at worst.
use crate::fault::DockFault;
use crate::files;
use crate::rules::named;
use desk::reports::report;
use desk::room::Tables;
use desk::rules::RuleName;
use outlook::report::Report;
use std::alloc::Global;
use std::env::Args;

/// What the words after the sheet ask about.
#[derive(Drop)]
struct Asked {
    rule: RuleName,
    reports: Vec<Report>,
}

pub fn run(rt: &HostRuntime, sheet: String, words: Args) -> Result<(), DockFault> {
    let asked = read(rt.alloc(), words)?;
    let bytes = files::read(rt, sheet)?;
    let mut tables = Tables::new(rt.alloc())?;
    let text = desk::worst::worst(
        rt.alloc(),
        bytes.as_slice(),
        tables.lend(),
        asked.rule,
        asked.reports.as_slice(),
    )?;
    print!(rt; "{text}")?;
    Ok(())
}

/// Reads the words in their order; a later rule replaces an earlier one, and deduct stands where none is named.
fn read(heap: Global, mut words: Args) -> Result<Asked, DockFault> {
    let mut rule = RuleName::Deduct;
    let mut reports = Vec::new(heap);
    // not a `for`: an option takes the word after it
    while let Some(word) = words.next() {
        if word.as_str() == "--rule" {
            rule = named(words.next().ok_or(DockFault::Unnamed(word))?)?;
        } else {
            reports.push(reported(word)?)?;
        }
    }
    Ok(Asked { rule, reports })
}

/// The report of this word, or the fault that quotes it.
fn reported(word: String) -> Result<Report, DockFault> {
    report(word.as_str()).ok_or(DockFault::NoReport(word))
}
