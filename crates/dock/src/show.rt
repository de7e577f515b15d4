//! `dock show`: prints a sheet as a listing.
use crate::fault::DockFault;
use crate::files;
use desk::room::Tables;

pub fn run(rt: &HostRuntime, sheet: String) -> Result<(), DockFault> {
    let bytes = files::read(rt, sheet)?;
    let mut tables = Tables::new(rt.alloc())?;
    let text = desk::show::show(rt.alloc(), bytes.as_slice(), tables.lend())?;
    print!(rt; "{text}")?;
    Ok(())
}
