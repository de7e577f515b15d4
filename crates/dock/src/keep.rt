//! `dock keep`: keeps a board by the calls of a file or of the standard input.
use crate::fault::DockFault;
use crate::files;
use crate::rules::named;
use console::keep::keep;
use console::tariffs::TariffName;
use desk::fault::DeskFault;
use desk::room::Tables;
use desk::rules::RuleName;
use sheet::sheet::Sheet;
use std::env::Args;
use std::io;
use std::io::BufRead;
use tariff::parcel_minutes::ParcelMinutes;
use tariff::ranked::Ranked;
use words::number::number;

/// What the words after the sheet ask for.
#[derive(Drop)]
struct Asked {
    rule: RuleName,
    tariff: TariffName,
    number: u16,
    calls: Option<String>,
}

pub fn run(rt: &HostRuntime, sheet: String, words: Args) -> Result<(), DockFault> {
    let Asked {
        rule,
        tariff,
        number,
        calls,
    } = read(words)?;
    let bytes = files::read(rt, sheet)?;
    let mut tables = Tables::new(rt.alloc())?;
    let sheet = tables.read(bytes.as_slice()).map_err(DeskFault::Refused)?;
    match calls {
        Some(name) => {
            let calls = files::read(rt, name)?;
            keep_by_name(rt, sheet, number, rule, tariff, calls.as_slice())
        }
        None => keep_by_name(rt, sheet, number, rule, tariff, rt.reader()),
    }
}

/// Reads the words in their order; a later option replaces an earlier one.
fn read(mut words: Args) -> Result<Asked, DockFault> {
    let mut asked = Asked {
        rule: RuleName::Deduct,
        tariff: TariffName::ParcelMinutes,
        number: 0,
        calls: None,
    };
    // not a `for`: an option takes the word after it
    while let Some(word) = words.next() {
        match word.as_str() {
            "--rule" => asked.rule = named(words.next().ok_or(DockFault::Unnamed(word))?)?,
            "--tariff" => asked.tariff = tariff(words.next().ok_or(DockFault::Bare(word))?)?,
            "--number" => asked.number = board_number(words.next().ok_or(DockFault::Bare(word))?)?,
            option if option.starts_with("--") => return Err(DockFault::NoOption(word)),
            _ if asked.calls.is_some() => return Err(DockFault::SecondFile(word)),
            _ => asked.calls = Some(word),
        }
    }
    Ok(asked)
}

/// The tariff of this name, or the fault that names what was said.
fn tariff(name: String) -> Result<TariffName, DockFault> {
    name.parse().map_err(|_| DockFault::NoTariff(name))
}

/// The number of this word, or the fault that quotes it.
fn board_number(word: String) -> Result<u16, DockFault> {
    number(word.as_str()).ok_or(DockFault::NoNumber(word))
}

/// Keeps a board under a rule and the tariff of this name.
fn keep_by_name<L: BufRead + Drop>(
    rt: &HostRuntime,
    sheet: Sheet<'_>,
    number: u16,
    rule: RuleName,
    tariff: TariffName,
    input: L,
) -> Result<(), DockFault> {
    let (heap, out) = (rt.alloc(), io::writer(rt));
    match tariff {
        TariffName::ParcelMinutes => keep(heap, sheet, number, &rule, &ParcelMinutes, input, out)?,
        TariffName::Ranked => keep(heap, sheet, number, &rule, &Ranked, input, out)?,
    }
    Ok(())
}
