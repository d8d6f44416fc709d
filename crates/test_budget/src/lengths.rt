// Lists one word too short, and just long enough: T + 1 words of units, and of cents 16, or T + 1 if fewer.

ghost use Rattle.std.specs.Prelude.{◌≤◌};

use crate::show::{Call, HELD};
use crate::small;
use std::io;
use test_sheets::plans::Plan;
use test_sheets::{REPLACE_AT, ShortSheet, paper};

// A call on lists of so many words.
pub fn lent(rt: &impl Print, call: Call, units: usize, cents: usize) -> io::Result<()>
    requires { (units ≤ 301) × (cents ≤ 16) }
{
    let mut first = [HELD; 301];
    let mut second = [HELD; 16];
    call.answer(rt, &mut first[..units], &mut second[..cents])
}

fn two(rt: &impl Print) -> io::Result<()> {
    let s = small::sheet();
    let p = small::plan();
    let call = Call {
        name: "T 2",
        sheet: &s.0,
        plan: p.bytes(),
        general: 1_000,
    };
    lent(rt, call, 2, 3)?;
    lent(rt, call, 3, 2)?;
    lent(rt, call, 3, 3)
}

// The small sheet with another horizon, up to which a replacement may last.
pub fn lasting(horizon: u64) -> ShortSheet {
    small::sheet().lives(REPLACE_AT, 1, 16).put16(5, horizon)
}

fn fifteen(rt: &impl Print) -> io::Result<()> {
    let s = lasting(15);
    let p = Plan::of(0, 0, &[15]);
    let call = Call {
        name: "T 15",
        sheet: &s.0,
        plan: p.bytes(),
        general: 1_000,
    };
    lent(rt, call, 15, 16)?;
    lent(rt, call, 16, 15)?;
    lent(rt, call, 16, 16)
}

fn sixteen(rt: &impl Print) -> io::Result<()> {
    let s = lasting(16);
    let p = Plan::of(0, 0, &[16]);
    let call = Call {
        name: "T 16",
        sheet: &s.0,
        plan: p.bytes(),
        general: 1_000,
    };
    lent(rt, call, 16, 16)?;
    lent(rt, call, 17, 15)?;
    lent(rt, call, 17, 16)
}

fn three_hundred(rt: &impl Print) -> io::Result<()> {
    let s = paper::sheet();
    let p = Plan::of(0, 0, &[60, 120, 180, 240, 300]);
    let call = Call {
        name: "T 300",
        sheet: &s.0,
        plan: p.bytes(),
        general: 20_000,
    };
    lent(rt, call, 300, 16)?;
    lent(rt, call, 301, 15)?;
    lent(rt, call, 301, 16)
}

pub fn all(rt: &impl Print) -> io::Result<()> {
    two(rt)?;
    fifteen(rt)?;
    sixteen(rt)?;
    three_hundred(rt)
}
