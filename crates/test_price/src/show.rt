// A case's line: its name, then what `price` answers.

use std::io;
use test_sheets::show::Named;

pub fn answer(rt: &impl Print, name: &str, sheet: &[u8], plan: &[u8]) -> io::Result<()> {
    let units = Named("units", pricing::price(sheet, plan));
    println!(rt; "{name}: {units}")
}
