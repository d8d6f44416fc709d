// Each way into refusal 14 at its limit, on the paper's sheet, whose longest lives are 15, 30 and 60 years; and refusals 1 to 9, which come
// first.

use crate::show::answer;
use std::io;
use test_sheets::REPLACE_AT;
use test_sheets::paper::sheet;
use test_sheets::plans::Plan;

// The plan of least total, of 29 bytes.
fn least() -> Plan {
    Plan::of(0, 0, &[60, 120, 180, 240, 300])
}

fn lengths(rt: &impl Print, s: &[u8]) -> io::Result<()> {
    let p = least();
    answer(rt, "no byte", s, p.first(0))?;
    answer(rt, "18 bytes", s, p.first(18))?;
    answer(rt, "28 bytes of 29", s, p.first(28))?;
    answer(rt, "29 bytes of 29", s, p.first(29))?;
    answer(rt, "30 bytes of 29", s, p.first(30))?;
    answer(rt, "31 bytes of 29", s, p.first(31))
}

fn fields(rt: &impl Print, s: &[u8]) -> io::Result<()> {
    let marked = least().put16(1, 67 + 256 * 83);
    let version = least().put16(3, 2);
    let many = least().put16(17, 65_535);
    answer(rt, "mark RCS", s, marked.bytes())?;
    answer(rt, "version 2", s, version.bytes())?;
    answer(rt, "m 65535", s, many.bytes())
}

fn years(rt: &impl Print, s: &[u8]) -> io::Result<()> {
    let before = Plan::of(0, 0, &[60, 120, 180, 240, 299]);
    let past = Plan::of(0, 0, &[60, 120, 180, 241, 301]);
    let equal = Plan::of(0, 0, &[60, 120, 120, 180, 240, 300]);
    let falling = Plan::of(0, 0, &[60, 120, 119, 179, 240, 300]);
    answer(rt, "ends before T", s, before.bytes())?;
    answer(rt, "ends past T", s, past.bytes())?;
    answer(rt, "equal ends", s, equal.bytes())?;
    answer(rt, "ends that fall", s, falling.bytes())
}

fn lives(rt: &impl Print, s: &[u8]) -> io::Result<()> {
    let maintained = Plan::of(15, 15, &[60, 120, 180, 240, 300]);
    let longer = Plan::of(16, 16, &[60, 120, 180, 240, 300]);
    let renovated = Plan::of(15, 45, &[60, 120, 180, 240, 300]);
    let renewed = Plan::of(15, 46, &[60, 120, 180, 240, 300]);
    let replaced = Plan::of(0, 0, &[60, 120, 181, 240, 300]);
    let backward = Plan::of(15, 14, &[60, 120, 180, 240, 300]);
    answer(rt, "maintain 15 years", s, maintained.bytes())?;
    answer(rt, "maintain 16 years", s, longer.bytes())?;
    answer(rt, "renovate 30 years", s, renovated.bytes())?;
    answer(rt, "renovate 31 years", s, renewed.bytes())?;
    answer(rt, "replace 61 years", s, replaced.bytes())?;
    answer(rt, "i above j", s, backward.bytes())
}

// No replacement at all: renovating would have to end at T.
fn none(rt: &impl Print, s: &[u8]) -> io::Result<()> {
    let p = Plan::of(15, 45, &[]);
    answer(rt, "no replacement", s, p.bytes())
}

fn first(rt: &impl Print) -> io::Result<()> {
    let p = least();
    let late = sheet().put16(5, 301);
    let long = sheet().put16(REPLACE_AT + 2, 121);
    answer(rt, "no sheet", &[], p.bytes())?;
    answer(rt, "T 301", &late.0, p.bytes())?;
    answer(rt, "life 121 and no plan", &long.0, &[])
}

pub fn all(rt: &impl Print) -> io::Result<()> {
    let s = sheet();
    lengths(rt, &s.0)?;
    fields(rt, &s.0)?;
    years(rt, &s.0)?;
    lives(rt, &s.0)?;
    none(rt, &s.0)?;
    first(rt)
}
