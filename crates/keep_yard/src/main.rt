//! Two evenings at the console, on the yard sheet: by the calls of the standard input, and by those of a file.
#![tactic(auto)]

use carry::deduct::Deduct;
use console::keep::keep;
use desk::room::Tables;
use sheet::sheet::Sheet;
use std::{fs, io};
use tariff::parcel_minutes::ParcelMinutes;
use tariff::ranked::Ranked;

fn main(rt: HostRuntime) -> io::Result<()> {
    let bytes = fs::read(&rt, "yard.sheet")?;
    let mut tables = Tables::new(rt.alloc())?;
    match tables.read(bytes.as_slice()) {
        Ok(sheet) => evenings(&rt, sheet),
        Err(fault) => println!(rt; "{fault}"),
    }
}

/// The first evening is board 7's, under parcel-minutes; the second is board 8's, under ranked.
fn evenings(rt: &HostRuntime, sheet: Sheet<'_>) -> io::Result<()> {
    let (heap, input, out) = (rt.alloc(), rt.reader(), io::writer(rt));
    keep(heap, sheet, 7, &Deduct, &ParcelMinutes, input, out)?;
    let calls = fs::read(rt, "ranked.calls")?;
    let out = io::writer(rt);
    keep(heap, sheet, 8, &Deduct, &Ranked, calls.as_slice(), out)
}
