// Document 01's cases 9 to 12; and case 12, whose plan has 23 bytes, with buffers that are just too short and just long enough.

use crate::planned::{amply, in_buffers};
use std::io;
use test_sheets::document::{case_9, case_10, case_11, case_12};

pub fn cases(rt: &impl Print) -> io::Result<()> {
    amply(rt, "case 9", &case_9().0)?;
    amply(rt, "case 10", &case_10().0)?;
    amply(rt, "case 11", &case_11().0)?;
    amply(rt, "case 12", &case_12().0)
}

pub fn lengths(rt: &impl Print) -> io::Result<()> {
    let sheet = case_12().0;
    let mut short = [0; 22];
    let mut plan = [0; 23];
    let mut few = [0; 300];
    let mut words = [0; 301];
    in_buffers(rt, "case 12, 22 bytes", &sheet, &mut short, &mut words)?;
    in_buffers(rt, "case 12, 300 words", &sheet, &mut plan, &mut few)?;
    in_buffers(
        rt,
        "case 12, 23 bytes and 301 words",
        &sheet,
        &mut plan,
        &mut words,
    )
}
