//! `dock pack`: makes a sheet from a listing.
use crate::fault::DockFault;
use crate::files;
use desk::room::Tables;
use std::fs;

pub fn run(rt: &HostRuntime, listing: String, sheet: String) -> Result<(), DockFault> {
    let text = files::read(rt, listing)?;
    let mut tables = Tables::new(rt.alloc())?;
    let bytes = desk::pack::pack(rt.alloc(), text.as_slice(), tables.lend())?;
    fs::write(rt, sheet.as_str(), bytes.as_slice()).map_err(|error| DockFault::File(sheet, error))
}
