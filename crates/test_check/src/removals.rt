// Sheets of version 2, document 02's request 6: the removal in each record, and several faults. `at` is where an option's record starts in such
// a sheet.

ghost use Rattle.std.specs.Prelude.{◌+◌, ◌≤◌};

use crate::cases::eight_used;
use crate::show::answer;
use std::io;
use test_sheets::longer::{LongSheet, Removal};
use test_sheets::removals::free;
use test_sheets::{MAINTAIN_AT, RENOVATE_AT, REPLACE_AT, ShortSheet, longer, plain};

fn without(shorter: ShortSheet) -> LongSheet {
    longer::sheet(shorter, Removal::NONE, Removal::NONE, Removal::NONE)
}

// 6 and 7, at r 40,000.
fn limits(rt: &impl Print, sheet: LongSheet, at: usize) -> io::Result<()>
    requires { at ≤ 205 }
{
    answer(rt, "removal 10^9", &sheet.put32(at + 89, 1_000_000_000).0)?;
    answer(
        rt,
        "removal 10^9 + 1",
        &sheet.put32(at + 89, 1_000_000_001).0,
    )?;
    answer(rt, "removal f 40,000", &sheet.put_i32(at + 93, 40_000).0)?;
    answer(rt, "removal f 40,001", &sheet.put_i32(at + 93, 40_001).0)?;
    answer(
        rt,
        "removal f -100,000",
        &sheet.put_i32(at + 93, -100_000).0,
    )?;
    answer(
        rt,
        "removal f -100,001",
        &sheet.put_i32(at + 93, -100_001).0,
    )
}

// Of an option that is not offered, and of one that is.
pub fn record(rt: &impl Print, at: usize) -> io::Result<()>
    requires { at ≤ 205 }
{
    limits(rt, without(plain()), at)?;
    limits(rt, without(free()), at)
}

// All eight entries used: the removal at its limits behind the eighth is no entry.
fn behind_eight(rt: &impl Print, name: &str, at: usize) -> io::Result<()>
    requires { at ≤ 189 }
{
    let r = Removal::at(1_000_000_000, -100_000);
    answer(rt, name, &longer::sheet(eight_used(at), r, r, r).0)
}

pub fn overhauls(rt: &impl Print) -> io::Result<()> {
    behind_eight(rt, "8 overhauls of maintain, removals", MAINTAIN_AT)?;
    behind_eight(rt, "8 overhauls of renovate, removals", RENOVATE_AT)?;
    behind_eight(rt, "8 overhauls of replace, removals", REPLACE_AT)
}

// The sheet in version 2, with a removal of maintain alone.
fn maintained(rt: &impl Print, name: &str, shorter: ShortSheet, r: Removal) -> io::Result<()> {
    let sheet = longer::sheet(shorter, r, Removal::NONE, Removal::NONE);
    answer(rt, name, &sheet.0)
}

// Two faults: 6 and 7 of a removal stand among the numbers of their own option, in the order of the numbers, before any of the next.
pub fn order(rt: &impl Print) -> io::Result<()> {
    let amount = Removal::of(1_000_000_001, 0);
    let inflation = Removal::of(0, 40_001);
    let both = Removal::of(1_000_000_001, 40_001);
    let lived = plain().lives(MAINTAIN_AT, 3, 2);
    let invested = plain().put32(MAINTAIN_AT + 8, 40_001);
    let aged = plain().put32(MAINTAIN_AT + 20, 40_001);
    let counted = plain().put8(MAINTAIN_AT + 40, 9);
    maintained(rt, "5, 6 of the removal", lived, amount)?;
    maintained(rt, "6 and 7 of the removal", plain(), both)?;
    maintained(rt, "7, 6 of the removal", invested, amount)?;
    maintained(rt, "8, 7 of the removal", aged, inflation)?;
    maintained(rt, "9, 7 of the removal", counted, inflation)
}

// The same of two options.
pub fn options(rt: &impl Print) -> io::Result<()> {
    let amount = Removal::of(1_000_000_001, 0);
    let inflation = Removal::of(0, 40_001);
    let counted = plain().put8(MAINTAIN_AT + 40, 9);
    let next = plain().lives(RENOVATE_AT, 3, 2);
    let late = longer::sheet(counted, Removal::NONE, amount, Removal::NONE);
    maintained(rt, "6 of the removal, 5 of renovate", next, amount)?;
    maintained(rt, "7 of the removal, 5 of renovate", next, inflation)?;
    answer(rt, "9 of maintain, 6 of renovate's removal", &late.0)
}
