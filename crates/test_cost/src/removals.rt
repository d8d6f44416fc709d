// Document 02, request 6: case 12 with removal 3; a sheet that pays removals alone; one whose eight entries are all used; and a sheet of version 1,
// where the next record begins with other bytes than 0.

use crate::show::{Case, answers};
use std::io;
use test_sheets::longer::{LongSheet, Removal};
use test_sheets::removals::{alone, case_12, free};
use test_sheets::{REPLACE_AT, longer, plain};

const REPLACEMENTS: [Case; 3] = [
    ("case 12 removed", 2, 0, 2),
    ("case 12 removed", 2, 2, 4),
    ("case 12 removed", 2, 0, 3),
];

// Maintaining pays none, and neither do an end in year T and length 0.
const EACH_OPTION: [Case; 7] = [
    ("removals alone", 0, 0, 1),
    ("removals alone", 1, 1, 2),
    ("removals alone", 1, 1, 3),
    ("removals alone", 1, 2, 4),
    ("removals alone", 1, 1, 1),
    ("removals alone", 2, 1, 3),
    ("removals alone", 2, 2, 4),
];

const OVERHAULED: [Case; 2] = [("eight overhauls", 2, 0, 9), ("eight overhauls", 2, 1, 10)];

const VERSION_1: [Case; 3] = [
    ("no removals", 0, 0, 1),
    ("no removals", 1, 1, 2),
    ("no removals", 2, 1, 3),
];

// Only replace offered, T = 10, r 0, lives 9; all eight overhauls, of 1 at ages 1 to 8, and removal 20 behind them, which as an age is past
// the life.
fn eight_overhauls() -> LongSheet {
    let header = plain().put16(5, 10).put32(7, 0);
    let mut sheet = header.lives(REPLACE_AT, 9, 9).put8(REPLACE_AT + 40, 8);
    for j in 0..8 {
        let entry = REPLACE_AT + 41 + 6 * j;
        sheet = sheet.put16(entry, j as u64 + 1).put32(entry + 2, 1);
    }
    longer::sheet(sheet, Removal::NONE, Removal::NONE, Removal::of(20, 0))
}

pub fn all(rt: &impl Print) -> io::Result<()> {
    answers(rt, &case_12().0, &REPLACEMENTS)?;
    answers(rt, &alone().0, &EACH_OPTION)?;
    answers(rt, &eight_overhauls().0, &OVERHAULED)?;
    answers(rt, &free().0, &VERSION_1)
}
