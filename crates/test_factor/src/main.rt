// Runs `factor` and prints an answer a line; the file `stdout` beside `src` has the lines expected. The usual rates and those beside them, the
// first and the last rates and years, and each way into refusals 4 and 13, at its limit and far above it.

#![tactic(auto)]

use std::io;
use test_sheets::show::Named;

const USUAL: [u64; 9] = [
    19_999, 20_000, 20_001, 30_000, 39_999, 40_000, 40_001, 50_000, 50_001,
];

const OTHERS: [u64; 6] = [0, 1, 10_000, 60_000, 199_999, 200_000];

const REFUSED: [u64; 3] = [200_001, 4_294_967_296 + 40_000, u64::MAX];

const YEARS: [u64; 9] = [0, 1, 2, 3, 150, 299, 300, 301, u64::MAX];

fn answer(rt: &impl Print, rate: u64, year: u64) -> io::Result<()> {
    let factor = Named("factor", yearbook::factor(rate, year));
    println!(rt; "rate {rate} year {year}: {factor}")
}

fn years(rt: &impl Print, rate: u64) -> io::Result<()> {
    for year in YEARS {
        answer(rt, rate, year)?;
    }
    Ok(())
}

fn rates(rt: &impl Print, rates: &[u64]) -> io::Result<()> {
    for &rate in rates {
        years(rt, rate)?;
    }
    Ok(())
}

fn all(rt: &impl Print) -> io::Result<()> {
    rates(rt, &USUAL)?;
    rates(rt, &OTHERS)?;
    rates(rt, &REFUSED)
}

// Lines that cannot be written are not told: what was printed is compared.
fn main(rt: HostRuntime) {
    let _ = all(&rt);
}
