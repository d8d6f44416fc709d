// Runs `budget` on plans and prints what it answers and what the lists hold; the file `stdout` beside `src` has the lines expected. The paper's
// case study: its chain and one that maintains and renovates first, the words of the first years and of some later ones, and the sum of all beside
// the price. A small sheet, whose last word in cents tells the order of the rates; and sheets with removals. General inflation and the lengths of
// the lists at their limits, the order of the refusals, and what a refused call leaves.

#![tactic(auto)]

use std::io;

mod lengths;
mod paper;
mod refusals;
mod removals;
mod show;
mod small;

fn all(rt: &impl Print) -> io::Result<()> {
    paper::replacing(rt)?;
    paper::postponing(rt)?;
    paper::inflations(rt)?;
    small::inflations(rt)?;
    removals::all(rt)?;
    lengths::all(rt)?;
    refusals::all(rt)
}

// Lines that cannot be written are not told: what was printed is compared.
fn main(rt: HostRuntime) {
    let _ = all(&rt);
}
