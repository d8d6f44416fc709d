// Chains of the paper's case study.

use crate::show::answer;
use std::io;
use test_sheets::paper::sheet;
use test_sheets::plans::Plan;

// Five replacements of 60 years, 1.56 euro above the 3,897,920 of Tables 5 and 6; and six of 50.
fn replacing(rt: &impl Print, s: &[u8]) -> io::Result<()> {
    let least = Plan::of(0, 0, &[60, 120, 180, 240, 300]);
    let shorter = Plan::of(0, 0, &[50, 100, 150, 200, 250, 300]);
    answer(rt, "replace 60 120 180 240 300", s, least.bytes())?;
    answer(rt, "replace 50 100 150 200 250 300", s, shorter.bytes())
}

// One year of maintaining or of renovating first; and the lives that Table 8 has for the classic approach, 5 and 30 years.
fn postponing(rt: &impl Print, s: &[u8]) -> io::Result<()> {
    let maintained = Plan::of(1, 1, &[60, 120, 180, 240, 300]);
    let renovated = Plan::of(0, 1, &[60, 120, 180, 240, 300]);
    let classic = Plan::of(5, 35, &[95, 155, 215, 275, 300]);
    answer(
        rt,
        "maintain 1, replace 60 120 180 240 300",
        s,
        maintained.bytes(),
    )?;
    answer(
        rt,
        "renovate 1, replace 60 120 180 240 300",
        s,
        renovated.bytes(),
    )?;
    answer(
        rt,
        "maintain 5, renovate 35, replace 95 155 215 275 300",
        s,
        classic.bytes(),
    )
}

pub fn priced(rt: &impl Print) -> io::Result<()> {
    let s = sheet();
    replacing(rt, &s.0)?;
    postponing(rt, &s.0)
}
