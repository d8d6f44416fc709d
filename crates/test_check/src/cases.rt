// The cases on sheets of version 1, and the versions, a function a rule or two. `at` is where an option's record starts; the number added to it is
// a field's place in the record.

ghost use Rattle.std.specs.Prelude.{◌+◌, ◌≤◌};

use crate::show::{answer, check};
use std::io;
use test_sheets::{Bytes, MAINTAIN_AT, RENOVATE_AT, ShortSheet, plain};

// One field of the plain sheet set.
fn set8(rt: &impl Print, name: &str, at: usize, value: u64) -> io::Result<()>
    requires { at + 1 ≤ 278 }
{
    answer(rt, name, &plain().put8(at, value).0)
}

fn set16(rt: &impl Print, name: &str, at: usize, value: u64) -> io::Result<()>
    requires { at + 2 ≤ 278 }
{
    answer(rt, name, &plain().put16(at, value).0)
}

fn set32(rt: &impl Print, name: &str, at: usize, value: u64) -> io::Result<()>
    requires { at + 4 ≤ 278 }
{
    answer(rt, name, &plain().put32(at, value).0)
}

// 1
pub fn lengths(rt: &impl Print) -> io::Result<()> {
    let sheet = plain();
    answer(rt, "plain", &sheet.0)?;
    answer(rt, "277 bytes", &sheet.0[..277])?;
    answer(rt, "no bytes", &[])
}

// The mark, a version and T 1, then zeros.
fn version(rt: &impl Print, version: u64, length: usize) -> io::Result<()>
    requires { length ≤ 303 }
{
    let mark = Bytes([0; 303]).put(0, b"RCS");
    let sheet = mark.put8(3, version).put8(5, 1).0;
    println!(rt;
        "version {version}, {length} bytes: {}",
        check(&sheet[..length])
    )
}

fn lengths_of(rt: &impl Print, number: u64) -> io::Result<()> {
    for length in [278, 279, 301, 302, 303] {
        version(rt, number, length)?;
    }
    Ok(())
}

// 1 and 2: version 1 goes with 278 bytes, version 2 with 302, and no other with either.
pub fn versions(rt: &impl Print) -> io::Result<()> {
    lengths_of(rt, 1)?;
    lengths_of(rt, 2)?;
    version(rt, 3, 278)?;
    version(rt, 3, 302)
}

// 2 to 4
pub fn header(rt: &impl Print) -> io::Result<()> {
    set8(rt, "mark CCS", 0, u64::from(b'C'))?;
    set8(rt, "mark RRS", 1, u64::from(b'R'))?;
    set8(rt, "mark RCP", 2, u64::from(b'P'))?;
    set16(rt, "version 257", 3, 257)?;
    set16(rt, "T 0", 5, 0)?;
    set16(rt, "T 1", 5, 1)?;
    set16(rt, "T 300", 5, 300)?;
    set16(rt, "T 301", 5, 301)?;
    set32(rt, "r 200,000", 7, 200_000)?;
    set32(rt, "r 200,001", 7, 200_001)
}

// 5
const LIVES: [(u64, u64); 6] = [(1, 120), (1, 121), (7, 7), (3, 2), (1, 0), (0, 1)];

pub fn lives(rt: &impl Print, at: usize) -> io::Result<()>
    requires { at ≤ 189 }
{
    for (shortest, longest) in LIVES {
        let sheet = plain().lives(at, shortest, longest).0;
        println!(rt; "lives {shortest} to {longest}: {}", check(&sheet))?;
    }
    Ok(())
}

// 6
const AMOUNTS: [(&str, usize, u64); 6] = [
    ("investment 10^9", 4, 1_000_000_000),
    ("investment 10^9 + 1", 4, 1_000_000_001),
    ("maintenance 10^9", 12, 1_000_000_000),
    ("maintenance 10^9 + 1", 12, 1_000_000_001),
    ("electricity 10^9", 24, 1_000_000_000),
    ("electricity 10^9 + 1", 24, 1_000_000_001),
];

pub fn amounts(rt: &impl Print, at: usize) -> io::Result<()>
    requires { at ≤ 189 }
{
    for (name, field, amount) in AMOUNTS {
        answer(rt, name, &plain().put32(at + field, amount).0)?;
    }
    Ok(())
}

// 7, at r 40,000
const INFLATIONS: [(&str, usize, i32); 16] = [
    ("investment f 40,000", 8, 40_000),
    ("investment f 40,001", 8, 40_001),
    ("maintenance f 40,000", 16, 40_000),
    ("maintenance f 40,001", 16, 40_001),
    ("electricity f 40,000", 28, 40_000),
    ("electricity f 40,001", 28, 40_001),
    ("overhaul f 40,000", 36, 40_000),
    ("overhaul f 40,001", 36, 40_001),
    ("investment f -100,000", 8, -100_000),
    ("investment f -100,001", 8, -100_001),
    ("maintenance f -100,000", 16, -100_000),
    ("maintenance f -100,001", 16, -100_001),
    ("electricity f -100,000", 28, -100_000),
    ("electricity f -100,001", 28, -100_001),
    ("overhaul f -100,000", 36, -100_000),
    ("overhaul f -100,001", 36, -100_001),
];

pub fn inflations(rt: &impl Print, at: usize) -> io::Result<()>
    requires { at ≤ 189 }
{
    for (name, field, inflation) in INFLATIONS {
        answer(rt, name, &plain().put_i32(at + field, inflation).0)?;
    }
    Ok(())
}

// 8, with f 0
const AGEINGS: [(&str, usize, u64); 4] = [
    ("maintenance g 40,000", 20, 40_000),
    ("maintenance g 40,001", 20, 40_001),
    ("electricity g 40,000", 32, 40_000),
    ("electricity g 40,001", 32, 40_001),
];

pub fn ageings(rt: &impl Print, at: usize) -> io::Result<()>
    requires { at ≤ 189 }
{
    for (name, field, ageing) in AGEINGS {
        answer(rt, name, &plain().put32(at + field, ageing).0)?;
    }
    Ok(())
}

// 8, with r 200,000 and f −100,000, where the product allows any g up to the limit
pub fn high_ageings(rt: &impl Print, at: usize) -> io::Result<()>
    requires { at ≤ 189 }
{
    let base = plain().put32(7, 200_000);
    let maintenance = base.put_i32(at + 16, -100_000);
    let electricity = base.put_i32(at + 28, -100_000);
    let first = maintenance.put32(at + 20, 300_000);
    let second = maintenance.put32(at + 20, 300_001);
    let third = electricity.put32(at + 32, 300_000);
    let fourth = electricity.put32(at + 32, 300_001);
    answer(rt, "maintenance f -100,000, g 300,000", &first.0)?;
    answer(rt, "maintenance f -100,000, g 300,001", &second.0)?;
    answer(rt, "electricity f -100,000, g 300,000", &third.0)?;
    answer(rt, "electricity f -100,000, g 300,001", &fourth.0)
}

// 9, the count and the unused entries
pub fn counts(rt: &impl Print, at: usize) -> io::Result<()>
    requires { at ≤ 189 }
{
    set8(rt, "count 9", at + 40, 9)?;
    set8(rt, "count 1, age 0", at + 40, 1)?;
    set16(rt, "unused age 1", at + 41, 1)?;
    set32(rt, "unused amount 1", at + 43, 1)?;
    set8(rt, "last byte of the record 1", at + 88, 1)
}

// 9, used entries
pub fn entries(rt: &impl Print, at: usize) -> io::Result<()>
    requires { at ≤ 189 }
{
    let one = plain().put8(at + 40, 1);
    let last = one.put16(at + 41, 119);
    answer(rt, "age 1", &one.put16(at + 41, 1).0)?;
    answer(rt, "age 119", &last.0)?;
    answer(rt, "age 120", &one.put16(at + 41, 120).0)?;
    answer(rt, "overhaul 10^9", &last.put32(at + 43, 1_000_000_000).0)?;
    answer(
        rt,
        "overhaul 10^9 + 1",
        &last.put32(at + 43, 1_000_000_001).0,
    )
}

// All eight entries used, of ages 1 to 8.
pub fn eight_used(at: usize) -> ShortSheet
    requires { at ≤ 189 }
{
    let mut sheet = plain().put8(at + 40, 8);
    for j in 0..8 {
        sheet = sheet.put16(at + 41 + 6 * j, j as u64 + 1);
    }
    sheet
}

// 9
pub fn eight(rt: &impl Print, at: usize) -> io::Result<()>
    requires { at ≤ 189 }
{
    answer(rt, "count 8", &eight_used(at).0)
}

// 9, two used entries
pub fn rising(rt: &impl Print, at: usize) -> io::Result<()>
    requires { at ≤ 189 }
{
    let two = plain().put8(at + 40, 2).put16(at + 41, 5);
    answer(rt, "ages 5, 6", &two.put16(at + 47, 6).0)?;
    answer(rt, "ages 5, 5", &two.put16(at + 47, 5).0)?;
    answer(rt, "ages 5, 4", &two.put16(at + 47, 4).0)
}

// Two faults: a number of maintain comes before one of renovate, a smaller number of one option before a larger, and the header before all.
pub fn order(rt: &impl Print) -> io::Result<()> {
    let count = plain().put8(RENOVATE_AT + 40, 9);
    let investment = count.put32(MAINTAIN_AT + 4, 1_000_000_001);
    let lives = count.put16(RENOVATE_AT, 1);
    let rate = investment.put32(7, 200_001);
    answer(rt, "9 of renovate", &count.0)?;
    answer(rt, "9 of renovate, 6 of maintain", &investment.0)?;
    answer(rt, "9 and 5 of renovate", &lives.0)?;
    answer(rt, "9 of renovate, 6 of maintain, 4", &rate.0)
}
