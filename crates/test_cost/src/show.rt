// A case's line: its name and its arc, then what `cost` answers.

use std::io;
use test_sheets::show::Named;

// A case's name, and the option, the start and the end of its arc. The option is a number, as `cost` takes it: some cases name none of the three.
pub type Case = (&'static str, u64, u64, u64);

pub fn answer(rt: &impl Print, sheet: &[u8], case: Case) -> io::Result<()> {
    let (name, option, start, end) = case;
    let units = Named("units", costing::cost(sheet, option, start, end));
    println!(rt; "{name} {option} {start} {end}: {units}")
}

// A line for each arc of a sheet.
pub fn answers(rt: &impl Print, sheet: &[u8], cases: &[Case]) -> io::Result<()> {
    for &case in cases {
        answer(rt, sheet, case)?;
    }
    Ok(())
}
