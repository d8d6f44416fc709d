// The paper's case study.

use crate::show::answer;
use std::io;
use test_sheets::paper::sheet;

// The start and the end of each replacement, and what Table 5 has for it, in units: ten thousandths of a euro.
const TABLE: [(u64, u64, u64); 5] = [
    (0, 60, 32_376_320_000),
    (60, 120, 5_476_430_000),
    (120, 180, 936_950_000),
    (180, 240, 161_520_000),
    (240, 300, 27_980_000),
];

// A replacement, and whether it costs what the table has, give or take less than a euro.
fn replacement(rt: &impl Print, s: &[u8], start: u64, end: u64, table: u64) -> io::Result<()> {
    answer(rt, s, ("paper", 2, start, end))?;
    let near = match costing::cost(s, 2, start, end) {
        Ok(units) => units.abs_diff(table) < 10_000,
        Err(_) => false,
    };
    let apart = if near {
        "less than a euro away"
    } else {
        "a euro away or more"
    };
    println!(rt; "  Table 5 {} euros, {apart}", table / 10_000)
}

pub fn replacements(rt: &impl Print) -> io::Result<()> {
    let s = sheet().0;
    for (start, end, table) in TABLE {
        replacement(rt, &s, start, end, table)?;
    }
    Ok(())
}
