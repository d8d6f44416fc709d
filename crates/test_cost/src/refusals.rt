// Each way into refusal 13 at its limit, on the paper's sheet and on one that offers no option; and refusals 1 to 9, which come first.

use crate::show::{Case, answer, answers};
use std::io;
use test_sheets::paper::sheet;
use test_sheets::{REPLACE_AT, plain};

const TOP: u64 = u64::MAX;

const OPTIONS: [Case; 3] = [
    ("option", 3, 0, 1),
    ("option", 256, 0, 1),
    ("option", TOP, 0, 1),
];

const YEARS: [Case; 6] = [
    ("last year", 2, 240, 300),
    ("past T", 2, 241, 301),
    ("past T", 2, 1, TOP),
    ("backward", 2, 10, 9),
    ("backward", 2, TOP, 0),
    ("backward", 1, TOP, 30),
];

const LENGTHS: [Case; 7] = [
    ("maintain", 0, 0, 15),
    ("maintain", 0, 0, 16),
    ("maintain", 0, 1, 15),
    ("renovate", 1, 7, 37),
    ("renovate", 1, 7, 38),
    ("replace", 2, 7, 67),
    ("replace", 2, 7, 68),
];

const ZERO: [Case; 7] = [
    ("zero", 0, 0, 0),
    ("zero", 0, 5, 5),
    ("zero", 1, 0, 0),
    ("zero", 1, 300, 300),
    ("zero", 1, 301, 301),
    ("zero", 2, 0, 0),
    ("zero", 2, 300, 300),
];

// Where no option is offered, length 0 of maintain and renovate is all there is.
const NONE: [Case; 4] = [
    ("none", 0, 0, 0),
    ("none", 1, 5, 5),
    ("none", 2, 5, 5),
    ("none", 0, 0, 1),
];

fn first(rt: &impl Print) -> io::Result<()> {
    let late = sheet().put16(5, 301);
    let long = sheet().put16(REPLACE_AT + 2, 121);
    answer(rt, &[], ("no bytes", 3, 0, 1))?;
    answer(rt, &late.0, ("T 301", 3, 0, 1))?;
    answer(rt, &long.0, ("life 121", 3, 0, 1))
}

pub fn all(rt: &impl Print) -> io::Result<()> {
    let s = sheet().0;
    answers(rt, &s, &OPTIONS)?;
    answers(rt, &s, &YEARS)?;
    answers(rt, &s, &LENGTHS)?;
    answers(rt, &s, &ZERO)?;
    answers(rt, &plain().0, &NONE)?;
    first(rt)
}
