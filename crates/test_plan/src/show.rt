// What is printed of a plan, and of the words that planning lends.

ghost use Rattle.std.specs.Prelude.{◌≤◌};

use std::io;
use std::io::Write;

// Word y where no replacements lead from y to T: 2^64 − 1.
const NONE: u64 = u64::MAX;

pub fn plan_lines(rt: &impl Print, plan: &[u8]) -> io::Result<()> {
    let mut text = [0; 6069];
    let printed = lines::plan_lines(plan, &mut text);
    io::writer(rt).write_all(&text[..printed])
}

// The year and its word: the least total of replacements alone from y to T.
pub fn year(rt: &impl Print, words: &[u64; 302], y: usize) -> io::Result<()>
    requires { y ≤ 300 }
{
    match words[y] {
        NONE => println!(rt; "year {y}: none"),
        units => println!(rt; "year {y}: units {units}"),
    }
}

// For T = 3, the first word behind those of years 0 to T, the last that planning wants, and the one behind it.
pub fn kept(rt: &impl Print, words: &[u64; 302]) -> io::Result<()> {
    println!(rt;
        "words 4, 300 and 301: {} {} {}",
        words[4], words[300], words[301]
    )
}
