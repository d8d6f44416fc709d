// The words that `plan` lends, a line a year: document 01's cases 9 to 12; the paper's case study, and its sheet with replace not offered.

ghost use Rattle.std.specs.Prelude.{◌≤◌};

use crate::show::{kept, year};
use std::io;
use test_sheets::paper::sheet;
use test_sheets::{REPLACE_AT, document};

// The words after planning, one more than it wants; they hold 7 before. What it answers is printed by the cases of plans.
fn lent(sheet: &[u8]) -> [u64; 302] {
    let mut plan = [0; 619];
    let mut words = [7; 302];
    let _ = planner::plan(sheet, &mut plan, &mut words);
    words
}

// The words of the first years up to one, under the case's name.
fn years_to(rt: &impl Print, name: &str, words: &[u64; 302], last: usize) -> io::Result<()>
    requires { last ≤ 300 }
{
    println!(rt; "{name}")?;
    for y in 0..=last {
        year(rt, words, y)?;
    }
    Ok(())
}

// No replacements lead from 0 to T.
fn case_9(rt: &impl Print) -> io::Result<()> {
    years_to(rt, "case 9, words", &lent(&document::case_9().0), 5)
}

// Every total is 0.
fn case_10(rt: &impl Print) -> io::Result<()> {
    years_to(rt, "case 10, words", &lent(&document::case_10().0), 7)
}

// Words past T keep their content.
fn case_11(rt: &impl Print) -> io::Result<()> {
    let words = lent(&document::case_11().0);
    years_to(rt, "case 11, words", &words, 3)?;
    kept(rt, &words)
}

pub fn years_0_to_4(rt: &impl Print, name: &str, sheet: &[u8]) -> io::Result<()> {
    years_to(rt, name, &lent(sheet), 4)
}

pub fn cases(rt: &impl Print) -> io::Result<()> {
    case_9(rt)?;
    case_10(rt)?;
    case_11(rt)?;
    years_0_to_4(rt, "case 12, words", &document::case_12().0)
}

// Where the replacements of the case study start, and its last years.
pub fn years_to_300(rt: &impl Print, name: &str, sheet: &[u8]) -> io::Result<()> {
    let words = lent(sheet);
    println!(rt; "{name}")?;
    for y in [0, 60, 120, 180, 240, 299, 300] {
        year(rt, &words, y)?;
    }
    Ok(())
}

pub fn replacements(rt: &impl Print) -> io::Result<()> {
    years_to_300(rt, "paper, words", &sheet().0)
}

pub fn none(rt: &impl Print) -> io::Result<()> {
    let words = lent(&sheet().lives(REPLACE_AT, 0, 0).0);
    println!(rt; "paper, replace not offered, words")?;
    year(rt, &words, 299)?;
    year(rt, &words, 300)
}
