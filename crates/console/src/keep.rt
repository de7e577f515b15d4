//! An evening at the console.
use crate::console::Console;
use carry::rule::Measured;
use keeper::reserving::ByRemains;
use keeper::tables::Tables;
use keeper::tend::tend;
use sheet::sheet::Sheet;
use std::alloc::Global;
use std::fmt::Display;
use std::io;
use std::io::{BufRead, Write};
use tariff::charges::Tariff;

/// Opens a board on a sheet under a number, performs the calls that the input's lines ask for, one after another, and tells each answer as
/// its line comes; at the end it tells which slips are out. An error of input, output or memory ends the run, and is answered.
pub fn keep<R: Measured, T: Tariff, L: BufRead + Drop, W: Write + Drop>(
    heap: Global,
    sheet: Sheet<'_>,
    number: u16,
    rule: &R,
    tariff: &T,
    input: L,
    out: W,
) -> io::Result<()>
where
    T::Toll: Display,
{
    let (events, activities) = (sheet.events.len(), sheet.activities.len());
    let mut worst = vec![in heap; 0u16; events]?;
    let mut bills = vec![in heap; tariff.nought(); events]?;
    let mut late = vec![in heap; 0u16; events]?;
    let mut gone = vec![in heap; 0u8; activities]?;
    let mut reserves = vec![in heap; 0u16; events]?;
    let mut tables = Tables {
        worst: worst.as_mut_slice(),
        bills: bills.as_mut_slice(),
        late: late.as_mut_slice(),
        gone: gone.as_mut_slice(),
        reserves: reserves.as_mut_slice(),
    };
    let mut console = Console::new(heap, input, out);
    let (board, _plan) = tend(
        &mut console,
        sheet,
        number,
        u32::MAX,
        rule,
        tariff,
        &ByRemains,
        &mut tables,
    );
    console.close(board)
}
