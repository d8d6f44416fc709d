// Prints the table of the yearbook as it stands in its source, crates/yearbook/src/table.rt. Every factor is stepped: the crate that holds the
// table is none of those that this program stands on.

#![tactic(auto)]

ghost use Rattle.std.specs.Prelude.{◌≤◌};

use std::io;

// The years 0 to 300 of a rate, a line each.
fn print_rate(rt: &impl Print, rate: u64) -> io::Result<()>
    requires { rate ≤ 200_000 }
{
    for year in 0..=300 {
        println!(rt; "    {},", factors::stepped(rate, year))?;
    }
    Ok(())
}

fn table(rt: &impl Print) -> io::Result<()> {
    println!(rt;
        "// The present-worth factors of 2, 3, 4 and 5 per cent, one rate after the other, each from year 0 to year 300."
    )?;
    println!(rt; "// `yearbook_table` prints this file.\n")?;
    println!(rt; "pub const FACTORS: [u64; 1204] = [")?;
    for rate in [20_000, 30_000, 40_000, 50_000] {
        print_rate(rt, rate)?;
    }
    println!(rt; "];")
}

// Lines that cannot be written are not told: what was printed is compared.
fn main(rt: HostRuntime) {
    let _ = table(&rt);
}
