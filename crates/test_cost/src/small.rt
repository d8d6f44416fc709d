// Cases 6 to 8: replace, T = 3, lives 1 to 2, r 40,000, investment 1, maintenance 1, and an overhaul of 1 at age 1 in the last two.

use crate::show::{answer, answers};
use std::io;
use test_sheets::{REPLACE_AT, ShortSheet, plain};

fn sheet() -> ShortSheet {
    let replacing = plain().put16(5, 3).lives(REPLACE_AT, 1, 2);
    replacing.put32(REPLACE_AT + 4, 1).put32(REPLACE_AT + 12, 1)
}

fn overhauled() -> ShortSheet {
    let aged = sheet().put8(REPLACE_AT + 40, 1).put16(REPLACE_AT + 41, 1);
    aged.put32(REPLACE_AT + 43, 1)
}

pub fn cases(rt: &impl Print) -> io::Result<()> {
    answer(rt, &sheet().0, ("case 6", 2, 1, 3))?;
    answers(
        rt,
        &overhauled().0,
        &[("case 7", 2, 1, 3), ("case 8", 2, 1, 2)],
    )
}
