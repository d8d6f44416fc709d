// Refusals in their order: the sheet's number, then the plan's 14, then 15, then 16. Each comes with all the later faults, on empty lists, and by
// itself, on lists that are long enough; without a fault the call is accepted.

ghost use Rattle.std.specs.Prelude.{◌≤◌};

use crate::lengths::lent;
use crate::show::Call;
use crate::small;
use std::io;
use test_sheets::plans::Plan;
use test_sheets::{REPLACE_AT, ShortSheet};

// A replacement of 2 years, where only 1 year is offered.
fn late() -> Plan {
    Plan::of(0, 0, &[2])
}

// On lists of so many words: of none, or of 3, which are enough.
fn case(
    rt: &impl Print,
    name: &str,
    sheet: ShortSheet,
    plan: Plan,
    general: u64,
    words: usize,
) -> io::Result<()>
    requires { words ≤ 16 }
{
    let call = Call {
        name,
        sheet: &sheet.0,
        plan: plan.bytes(),
        general,
    };
    lent(rt, call, words, words)
}

fn sheets(rt: &impl Print) -> io::Result<()> {
    let rate = small::sheet().put32(7, 200_001);
    let life = small::sheet().put16(REPLACE_AT + 2, 121);
    let p = small::plan();
    case(rt, "r 200,001, replace 2", rate, late(), 50_001, 0)?;
    case(rt, "r 200,001", rate, p, 50_000, 3)?;
    case(rt, "life 121, replace 2", life, late(), 50_001, 0)?;
    case(rt, "life 121", life, p, 50_000, 3)
}

fn plans(rt: &impl Print) -> io::Result<()> {
    let s = small::sheet();
    case(rt, "replace 2", s, late(), 50_001, 0)?;
    case(rt, "replace 2", s, late(), 50_000, 3)
}

// The four low bytes of 2^32 would be accepted.
fn inflations(rt: &impl Print) -> io::Result<()> {
    let s = small::sheet();
    let p = small::plan();
    case(rt, "replace 1 2", s, p, 50_001, 0)?;
    case(rt, "replace 1 2", s, p, 50_001, 3)?;
    case(rt, "replace 1 2", s, p, 4_294_967_296, 3)?;
    case(rt, "replace 1 2", s, p, u64::MAX, 3)
}

fn lists(rt: &impl Print) -> io::Result<()> {
    let s = small::sheet();
    let p = small::plan();
    case(rt, "replace 1 2", s, p, 50_000, 0)?;
    case(rt, "replace 1 2", s, p, 50_000, 3)
}

pub fn all(rt: &impl Print) -> io::Result<()> {
    sheets(rt)?;
    plans(rt)?;
    inflations(rt)?;
    lists(rt)
}
