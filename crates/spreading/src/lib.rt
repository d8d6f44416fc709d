// What an arc pays, added to the words of the years in which it pays: document 02, request 2. In one list the words are present values in units, in
// the other money of the year in cents; a ledger says how a list counts, and the code that adds is the same for both.
// Nothing here is a public call: `add_arc` and the two ledgers, a `Divisor` and `Money`, serve the crates above, which meet what they require.

#![tactic(auto)]

mod adding;
mod cents;
mod ledger;
mod units;

pub use adding::add_arc;
pub use ledger::Ledger;

// How money of the year is counted: the factor of general inflation, and the last year.
#[derive(Clone, Copy)]
pub struct Money {
    pub general: u64,
    pub last: u64,
}
