// Compares `plan` with a listing of all chains, on small sheets: document 01, 'Acceptance by the buyer's reader'. The sheets are drawn by a
// generator of this program, pass the checks, are of version 1 or 2 and have T from 1 to 8. Of each, every feasible chain is listed and priced by
// the text of documents 01 and 02, and the one that the tie rule takes is compared with what `plan` answers and writes: number, option, total, plan
// bytes and words. The listing shares no code with the library. The file `stdout` beside `src` has the lines expected; each difference prints a
// line of its own.

#![tactic(auto)]

mod arcs;
mod bytes;
mod chains;
mod changed;
mod compared;
mod draws;
mod expected;
mod figures;
mod listing;
mod rates;
mod sheets;
mod show;
mod stepping;
mod written;

use compared::Tally;
use std::io;

const SHEETS: u64 = 600;

fn all(rt: &impl Print) -> io::Result<()> {
    let mut seed = 1;
    let mut tally = Tally::NONE;
    for number in 0..SHEETS {
        seed = draws::next_sheet(seed);
        tally = compared::compare(rt, tally, number, sheets::figures(seed))?;
    }
    println!(rt; "{tally}")
}

// Lines that cannot be written are not told: what was printed is compared.
fn main(rt: HostRuntime) {
    let _ = all(&rt);
}
