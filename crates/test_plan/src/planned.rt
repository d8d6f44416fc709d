// A sheet is planned, and what comes of it is printed under the case's name.

use crate::show::plan_lines;
use std::io;

// In the buffers that are lent.
pub fn in_buffers(
    rt: &impl Print,
    name: &str,
    sheet: &[u8],
    plan: &mut [u8],
    words: &mut [u64],
) -> io::Result<()> {
    println!(rt; "{name}")?;
    match planner::plan(sheet, plan, words) {
        Ok(_) => plan_lines(rt, plan),
        Err(refusal) => println!(rt; "{refusal}"),
    }
}

// In buffers that are long enough for every sheet.
pub fn amply(rt: &impl Print, name: &str, sheet: &[u8]) -> io::Result<()> {
    let mut plan = [0; 619];
    let mut words = [0; 301];
    in_buffers(rt, name, sheet, &mut plan, &mut words)
}
