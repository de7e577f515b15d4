//! Files read whole.
use crate::fault::DockFault;
use std::fs;

/// The bytes of the file of this name, or the fault that names it.
pub fn read(rt: &HostRuntime, name: String) -> Result<Vec<u8>, DockFault> {
    fs::read(rt, name.as_str()).map_err(|error| DockFault::File(name, error))
}
