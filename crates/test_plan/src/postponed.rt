// Sheets on which replacing is put off, or not done at all, or done in place of renovating; all that is not named is 0.

use crate::planned::amply;
use std::io;
use test_sheets::{MAINTAIN_AT, RENOVATE_AT, REPLACE_AT, ShortSheet, plain};

fn undiscounted(horizon: u64) -> ShortSheet {
    plain().put16(5, horizon).put32(7, 0)
}

// Nothing to pay, T = 7; maintain for 1 to 3 years, renovate for 2, replace for 1 to 2: the largest i, then the largest j.
pub fn all_free(rt: &impl Print) -> io::Result<()> {
    let kept = undiscounted(7)
        .lives(MAINTAIN_AT, 1, 3)
        .lives(RENOVATE_AT, 2, 2);
    amply(rt, "all free", &kept.lives(REPLACE_AT, 1, 2).0)
}

// T = 3. Maintaining for three years costs 2 and then 1 a year; a replacement costs 10.
pub fn maintained(rt: &impl Print) -> io::Result<()> {
    let offered = undiscounted(3)
        .lives(MAINTAIN_AT, 1, 3)
        .lives(REPLACE_AT, 1, 3);
    let upgraded = offered.put32(MAINTAIN_AT + 4, 2).put32(MAINTAIN_AT + 12, 1);
    amply(
        rt,
        "maintaining is cheapest",
        &upgraded.put32(REPLACE_AT + 4, 10).0,
    )
}

// T = 2, r 40,000, each option for a year. Maintaining is free; electricity of 1 has g 20,000 in a renovation and g 30,000 in a replacement, which
// is cheaper all the same, because its motors are new.
pub fn motors(rt: &impl Print) -> io::Result<()> {
    let kept = plain().put16(5, 2).lives(MAINTAIN_AT, 1, 1);
    let offered = kept.lives(RENOVATE_AT, 1, 1).lives(REPLACE_AT, 1, 1);
    let old = offered
        .put32(RENOVATE_AT + 24, 1)
        .put32(RENOVATE_AT + 32, 20_000);
    let new = old.put32(REPLACE_AT + 24, 1).put32(REPLACE_AT + 32, 30_000);
    amply(rt, "old motors", &new.0)
}
