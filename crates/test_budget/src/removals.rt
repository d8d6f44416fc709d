// Document 02, request 6, in lists that are a word longer than they need to be: case 12 with removal 3, a sheet that pays removals alone, and removals
// in the last year of cents and behind it.

use crate::lengths::lasting;
use crate::show::{Call, HELD, behind, year, years};
use std::io;
use test_sheets::longer::Removal;
use test_sheets::plans::Plan;
use test_sheets::{longer, removals};

// The words of years 0 to 4, their sum and the price, and the word behind either list.
fn four_years(rt: &impl Print, call: Call) -> io::Result<()> {
    let mut units = [HELD; 6];
    let mut cents = [HELD; 6];
    call.answer(rt, &mut units, &mut cents)?;
    years(rt, &units, &cents, 5)?;
    call.totals(rt, &units[..5])?;
    behind(rt, &units[5..], &cents[5..])
}

// Year 2 has the last flow and the removal of one replacement, and the investment of the next.
fn case_12(rt: &impl Print) -> io::Result<()> {
    let s = removals::case_12();
    let p = Plan::of(0, 0, &[2, 4]);
    let call = Call {
        name: "case 12 removed, replace 2 4",
        sheet: &s.0,
        plan: p.bytes(),
        general: 50_000,
    };
    four_years(rt, call)
}

// Maintaining ends in year 1 and pays none, renovating in year 2, and the replacements in years 3 and T; then renovating has length 0 in year 1.
fn alone(rt: &impl Print) -> io::Result<()> {
    let s = removals::alone();
    let p = Plan::of(1, 2, &[3, 4]);
    let every = Call {
        name: "removals alone, maintain 1, renovate 2, replace 3 4",
        sheet: &s.0,
        plan: p.bytes(),
        general: 20_000,
    };
    four_years(rt, every)?;
    let p = Plan::of(1, 1, &[2, 3, 4]);
    let skipped = Call {
        name: "removals alone, maintain 1, replace 2 3 4",
        sheet: &s.0,
        plan: p.bytes(),
        general: 20_000,
    };
    four_years(rt, skipped)
}

fn years_14_to_17(rt: &impl Print, units: &[u64], cents: &[u64]) -> io::Result<()> {
    for y in 14..=17 {
        year(rt, units, cents, y)?;
    }
    Ok(())
}

// The small sheet for 17 years with removal 4, which is paid in years 15 and 16.
fn last_cents(rt: &impl Print) -> io::Result<()> {
    let r = Removal::of(4, 10_000);
    let s = longer::sheet(lasting(17), Removal::NONE, Removal::NONE, r);
    let p = Plan::of(0, 0, &[15, 16, 17]);
    let mut units = [HELD; 19];
    let mut cents = [HELD; 17];
    let call = Call {
        name: "small removed, replace 15 16 17",
        sheet: &s.0,
        plan: p.bytes(),
        general: 20_000,
    };
    call.answer(rt, &mut units, &mut cents)?;
    years_14_to_17(rt, &units[..18], &cents[..16])?;
    call.totals(rt, &units[..18])?;
    behind(rt, &units[18..], &cents[16..])
}

pub fn all(rt: &impl Print) -> io::Result<()> {
    case_12(rt)?;
    alone(rt)?;
    last_cents(rt)
}
