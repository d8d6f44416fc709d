// A small sheet: only replace offered, for 1 year, T = 2, r 40,000; investment 1 with f 10,000; maintenance 7 with f 10,000 and g 7,000.

use crate::show::{Call, HELD, behind, years};
use std::io;
use test_sheets::plans::Plan;
use test_sheets::{REPLACE_AT, ShortSheet, plain};

pub fn sheet() -> ShortSheet {
    plain()
        .put16(5, 2)
        .lives(REPLACE_AT, 1, 1)
        .put32(REPLACE_AT + 4, 1)
        .put32(REPLACE_AT + 8, 10_000)
        .put32(REPLACE_AT + 12, 7)
        .put32(REPLACE_AT + 16, 10_000)
        .put32(REPLACE_AT + 20, 7_000)
}

// Ends 1 and 2.
pub fn plan() -> Plan {
    Plan::of(0, 0, &[1, 2])
}

// The words of all years, and the one behind them.
fn inflated(rt: &impl Print, general: u64) -> io::Result<()> {
    let s = sheet();
    let p = plan();
    let mut units = [HELD; 4];
    let mut cents = [HELD; 4];
    let call = Call {
        name: "small",
        sheet: &s.0,
        plan: p.bytes(),
        general,
    };
    call.answer(rt, &mut units, &mut cents)?;
    years(rt, &units, &cents, 3)?;
    behind(rt, &units[3..], &cents[3..])
}

// General inflations up to the limit.
pub fn inflations(rt: &impl Print) -> io::Result<()> {
    for general in [1_000, 0, 1, 50_000] {
        inflated(rt, general)?;
    }
    Ok(())
}
