// The paper's case study, T = 300, in lists that are two words longer than they need to be.

use crate::show::{Call, HELD, behind, year, years};
use std::io;
use test_sheets::paper::sheet;
use test_sheets::plans::Plan;

// Years past 15 of replacements of 60 years: year 60 has the last flows of one and the investment of the next, year 300 the last flows alone.
fn later(rt: &impl Print, units: &[u64], cents: &[u64]) -> io::Result<()> {
    for y in [59, 60, 61, 299, 300] {
        year(rt, units, cents, y)?;
    }
    Ok(())
}

// The sum of years 0 to 300 beside the price, and the words behind either list.
fn closing(rt: &impl Print, call: Call, units: &[u64; 303], cents: &[u64; 18]) -> io::Result<()> {
    call.totals(rt, &units[..301])?;
    behind(rt, &units[301..], &cents[16..])
}

// The plan of least total.
pub fn replacing(rt: &impl Print) -> io::Result<()> {
    let s = sheet();
    let p = Plan::of(0, 0, &[60, 120, 180, 240, 300]);
    let mut units = [HELD; 303];
    let mut cents = [HELD; 18];
    let call = Call {
        name: "replace 60 120 180 240 300",
        sheet: &s.0,
        plan: p.bytes(),
        general: 20_000,
    };
    call.answer(rt, &mut units, &mut cents)?;
    years(rt, &units, &cents, 16)?;
    later(rt, &units, &cents)?;
    closing(rt, call, &units, &cents)
}

// The lives that Table 8 has for the classic approach, 5 and 30 years. Year 5 has the last flows of maintaining, whose overhaul of that age is
// not paid, and the investment of renovating.
pub fn postponing(rt: &impl Print) -> io::Result<()> {
    let s = sheet();
    let p = Plan::of(5, 35, &[95, 155, 215, 275, 300]);
    let mut units = [HELD; 303];
    let mut cents = [HELD; 18];
    let call = Call {
        name: "maintain 5, renovate 35, replace 95 155 215 275 300",
        sheet: &s.0,
        plan: p.bytes(),
        general: 20_000,
    };
    call.answer(rt, &mut units, &mut cents)?;
    years(rt, &units, &cents, 16)?;
    closing(rt, call, &units, &cents)
}

// Year 15 has maintenance, electricity and an overhaul, each under fifteen years of general inflation.
fn inflated(rt: &impl Print, general: u64) -> io::Result<()> {
    let s = sheet();
    let p = Plan::of(0, 0, &[60, 120, 180, 240, 300]);
    let mut units = [HELD; 303];
    let mut cents = [HELD; 18];
    let call = Call {
        name: "replace 60 120 180 240 300",
        sheet: &s.0,
        plan: p.bytes(),
        general,
    };
    call.answer(rt, &mut units, &mut cents)?;
    year(rt, &units, &cents, 15)
}

pub fn inflations(rt: &impl Print) -> io::Result<()> {
    inflated(rt, 0)?;
    inflated(rt, 1)?;
    inflated(rt, 50_000)
}
