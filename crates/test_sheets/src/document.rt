// The sheets of document 01's cases 9 to 12: only replace offered, r 0, and all that is not named 0.

use crate::{REPLACE_AT, ShortSheet, plain};

fn replacing(horizon: u64, shortest: u64, longest: u64) -> ShortSheet {
    let header = plain().put16(5, horizon).put32(7, 0);
    header.lives(REPLACE_AT, shortest, longest)
}

// Lives 3 to 4, nothing to pay, T = 5: no replacements lead from 0 to T.
pub fn case_9() -> ShortSheet {
    replacing(5, 3, 4)
}

// The same with T = 7.
pub fn case_10() -> ShortSheet {
    replacing(7, 3, 4)
}

// Lives 1 to 2, maintenance 1, T = 3.
pub fn case_11() -> ShortSheet {
    replacing(3, 1, 2).put32(REPLACE_AT + 12, 1)
}

// Lives 1 to 3, investment 10, maintenance 1, an overhaul of 15 at age 2, T = 4.
pub fn case_12() -> ShortSheet {
    replacing(4, 1, 3)
        .put32(REPLACE_AT + 4, 10)
        .put32(REPLACE_AT + 12, 1)
        .put8(REPLACE_AT + 40, 1)
        .put16(REPLACE_AT + 41, 2)
        .put32(REPLACE_AT + 43, 15)
}
