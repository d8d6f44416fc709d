// Document 02, request 4: only renovate offered, T = 3, lives 1 to 2, r 40,000, electricity 1 with g 20,000; and maintenance 1 with g 20,000 too.

use crate::show::{Case, answer, answers};
use std::io;
use test_sheets::{RENOVATE_AT, ShortSheet, plain};

fn sheet() -> ShortSheet {
    let renovating = plain().put16(5, 3).lives(RENOVATE_AT, 1, 2);
    renovating
        .put32(RENOVATE_AT + 24, 1)
        .put32(RENOVATE_AT + 32, 20_000)
}

fn maintained() -> ShortSheet {
    sheet()
        .put32(RENOVATE_AT + 12, 1)
        .put32(RENOVATE_AT + 20, 20_000)
}

const ALONE: [Case; 3] = [
    ("old motors", 1, 1, 2),
    ("old motors", 1, 1, 3),
    ("old motors", 1, 0, 2),
];

pub fn renovations(rt: &impl Print) -> io::Result<()> {
    answers(rt, &sheet().0, &ALONE)?;
    answer(rt, &maintained().0, ("maintained", 1, 1, 2))
}
