// Runs the check on sheets near its limits and prints an answer a line; the file `stdout` beside `src` has the lines expected.
// Among them are the run-only cases of document 01 (T 300, 301 and 0; r 40,000 with f and with g 40,000 and 40,001) and every
// refusal at every option, those of a removal too. The sheet that each case changes: T 300, r 40,000, no option offered, every other field 0.

#![tactic(auto)]

ghost use Rattle.std.specs.Prelude.{◌≤◌};

use std::io;
use test_sheets::{MAINTAIN_AT, RENOVATE_AT, REPLACE_AT, longer};

mod cases;
mod removals;
mod show;

fn all(rt: &impl Print) -> io::Result<()> {
    cases::lengths(rt)?;
    cases::versions(rt)?;
    cases::header(rt)?;
    for at in [MAINTAIN_AT, RENOVATE_AT, REPLACE_AT] {
        record(rt, at)?;
    }
    cases::order(rt)?;
    for at in [longer::MAINTAIN_AT, longer::RENOVATE_AT, longer::REPLACE_AT] {
        removals::record(rt, at)?;
    }
    removals::overhauls(rt)?;
    removals::order(rt)?;
    removals::options(rt)
}

// Lines that cannot be written are not told: what was printed is compared.
fn main(rt: HostRuntime) {
    let _ = all(&rt);
}

// The cases of the option whose record starts at `at`.
fn record(rt: &impl Print, at: usize) -> io::Result<()>
    requires { at ≤ 189 }
{
    cases::lives(rt, at)?;
    cases::amounts(rt, at)?;
    cases::inflations(rt, at)?;
    cases::ageings(rt, at)?;
    cases::high_ageings(rt, at)?;
    cases::counts(rt, at)?;
    cases::entries(rt, at)?;
    cases::eight(rt, at)?;
    cases::rising(rt, at)
}
