// Runs `show`, which is all that `planshow` does, on the sheets in `data`, and prints each one's name and lines; the file `stdout` beside
// `src` has the lines expected. `tests/desk/shown.py` says what each sheet holds.

#![tactic(auto)]

ghost use Rattle.std.specs.Prelude.{◌≤◌, length, IfOk};

use std::io::{Read, Write};
use std::rt::Files;
use std::{fs, io};

// Reads until the buffer is full or the file ends, and answers how many bytes that are.
fn read_full<R: Read>(file: &mut R, buffer: &mut [u8]) -> io::Result<usize>
    ensures { IfOk result (λ n. n ≤ length buffer.new) }
{
    let mut done = 0;
    while done < buffer.len() {
        let count = file.read(&mut buffer[done..])?;
        if count == 0 {
            break;
        }
        done += count;
    }
    Ok(done)
}

// Of a file, one byte more than the longest sheet at most.
fn shown(rt: &(impl Files + Print), name: &str) -> io::Result<()> {
    println!(rt; "{name}")?;
    let mut file = fs::open(rt, name)?;
    let mut sheet = [0u8; 303];
    let length = read_full(&mut file, &mut sheet)?;
    let mut text = [0u8; printing::ROOM];
    let printed = printing::show(&sheet[..length], &mut text);
    io::writer(rt).write_all(&text[..printed])
}

// Cases 6 to 12 of document 01, the paper's case study, and sheets on which all options, or replacements in every year, are taken.
const PLANNED: [&str; 9] = [
    "case-06.sheet",
    "case-07-and-08.sheet",
    "case-09.sheet",
    "case-10.sheet",
    "case-11.sheet",
    "case-12.sheet",
    "pumping-station.sheet",
    "all-three.sheet",
    "every-year.sheet",
];

// Document 01's run-only cases at their limits.
const RUN_ONLY: [&str; 2] = ["inflation-at-the-rate.sheet", "ageing-at-the-rate.sheet"];

// Sheets of version 2, with removals.
const WITH_REMOVAL: [&str; 5] = [
    "case-12-removed.sheet",
    "removals-unpaid.sheet",
    "all-three-removed.sheet",
    "pumping-station-removed.sheet",
    "removals-at-their-limits.sheet",
];

// Refusals 1 to 4.
const REFUSED_BY_THE_HEADER: [&str; 11] = [
    "refused-1-empty.sheet",
    "refused-1-short.sheet",
    "refused-1-long.sheet",
    "refused-1-short-removed.sheet",
    "refused-1-long-removed.sheet",
    "refused-2-mark.sheet",
    "refused-2-version.sheet",
    "refused-2-version-removed.sheet",
    "refused-3-none.sheet",
    "refused-3-late.sheet",
    "refused-4.sheet",
];

// Refusals 5 to 9.
const REFUSED_BY_A_RECORD: [&str; 10] = [
    "refused-5-maintain.sheet",
    "refused-5-replace.sheet",
    "refused-6-renovate.sheet",
    "refused-7-maintain.sheet",
    "refused-7-replace.sheet",
    "refused-8-renovate.sheet",
    "refused-8-replace.sheet",
    "refused-9-maintain.sheet",
    "refused-9-renovate.sheet",
    "refused-9-replace.sheet",
];

// Refusals 6 and 7 of a removal.
const REFUSED_BY_A_REMOVAL: [&str; 2] = ["refused-6-removal.sheet", "refused-7-removal.sheet"];

fn all(rt: &(impl Files + Print), names: &[&str]) -> io::Result<()> {
    for name in names {
        shown(rt, name)?;
    }
    Ok(())
}

fn main(rt: HostRuntime) -> io::Result<()> {
    all(&rt, &PLANNED)?;
    all(&rt, &RUN_ONLY)?;
    all(&rt, &WITH_REMOVAL)?;
    all(&rt, &REFUSED_BY_THE_HEADER)?;
    all(&rt, &REFUSED_BY_A_RECORD)?;
    all(&rt, &REFUSED_BY_A_REMOVAL)
}
