// Runs `price` on plans and prints an answer a line; the file `stdout` beside `src` has the lines expected. The paper's case study: its
// chain, less than two euros above the total of its Tables 5 and 6, and other chains of the same sheet; chains that pay removals; and each way into
// refusal 14, at its limit.

#![tactic(auto)]

use std::io;

mod chains;
mod refusals;
mod removals;
mod show;

fn all(rt: &impl Print) -> io::Result<()> {
    chains::priced(rt)?;
    removals::all(rt)?;
    refusals::all(rt)
}

// Lines that cannot be written are not told: what was printed is compared.
fn main(rt: HostRuntime) {
    let _ = all(&rt);
}
