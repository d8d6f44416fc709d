// Sheets of document 02's request 6; a removal that is not named is 0.

use crate::longer::{LongSheet, Removal, sheet};
use crate::{MAINTAIN_AT, RENOVATE_AT, REPLACE_AT, ShortSheet, document, paper, plain};

// A removal of replace alone, with f 0.
fn replacing(shorter: ShortSheet, amount: u64) -> LongSheet {
    let third = Removal::of(amount, 0);
    sheet(shorter, Removal::NONE, Removal::NONE, third)
}

// Document 01's case 12 with removal 3.
pub fn case_12() -> LongSheet {
    replacing(document::case_12(), 3)
}

// T = 4, r 40,000, all options offered for 1 to 2 years, nothing to pay.
pub fn free() -> ShortSheet {
    plain()
        .put16(5, 4)
        .lives(MAINTAIN_AT, 1, 2)
        .lives(RENOVATE_AT, 1, 2)
        .lives(REPLACE_AT, 1, 2)
}

// The same with removal 5 of maintain, 1 of renovate with f 10,000 and 2 of replace with f −10,000.
pub fn alone() -> LongSheet {
    let first = Removal::of(5, 0);
    let second = Removal::of(1, 10_000);
    let third = Removal::at(2, -10_000);
    sheet(free(), first, second, third)
}

// Only replace offered, T = 2, r 0, lives 1 to 2, investment 10, maintenance 1, an overhaul of 15 at age 1. One replacement costs 27, two cost
// 22 and the removal of the first.
pub fn overhauled(removal: u64) -> LongSheet {
    let offered = plain().put16(5, 2).put32(7, 0).lives(REPLACE_AT, 1, 2);
    let yearly = offered.put32(REPLACE_AT + 4, 10).put32(REPLACE_AT + 12, 1);
    let aged = yearly.put8(REPLACE_AT + 40, 1).put16(REPLACE_AT + 41, 1);
    replacing(aged.put32(REPLACE_AT + 43, 15), removal)
}

// The paper's case study, with a tenth of each investment as removal, under the investment's inflation.
pub fn case_study() -> LongSheet {
    let first = Removal::of(15_000, 10_300);
    let second = Removal::of(112_500, 10_300);
    let third = Removal::of(250_000, 10_300);
    sheet(paper::sheet(), first, second, third)
}
