// Faulty sheets: the paper's with one field past its limit. A fault in a record comes with the option.

use crate::planned::amply;
use std::io;
use test_sheets::REPLACE_AT;
use test_sheets::paper::sheet;

pub fn sheets(rt: &impl Print) -> io::Result<()> {
    let late = sheet().put16(5, 301);
    let long = sheet().put16(REPLACE_AT + 2, 121);
    amply(rt, "T 301", &late.0)?;
    amply(rt, "replace for up to 121 years", &long.0)
}
