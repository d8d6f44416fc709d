// Runs `cost` on arcs and prints an answer a line; the file `stdout` beside `src` has the lines expected. Cases 6 to 8 of document 01;
// renovations whose motors go on ageing; removals; the paper's case study, whose arcs cost less than a euro from the present values of its
// Table 5; and each way into refusal 13, at its limit.

#![tactic(auto)]

use std::io;

mod motors;
mod paper;
mod refusals;
mod removals;
mod show;
mod small;

fn all(rt: &impl Print) -> io::Result<()> {
    small::cases(rt)?;
    motors::renovations(rt)?;
    removals::all(rt)?;
    paper::replacements(rt)?;
    refusals::all(rt)
}

// Lines that cannot be written are not told: what was printed is compared.
fn main(rt: HostRuntime) {
    let _ = all(&rt);
}
