// Present-worth factors, stepped year by year: document 02, request 5.
// Nothing here is a public call: `stepped` serves the crates above, which meet what it requires.

#![tactic(auto)]

ghost use Rattle.std.specs.Prelude.{◌≡◌, ◌≤◌};
ghost use Rattle.factors.specs.PresentWorth.{largest_rate, present_worth};

use division::Divisor;
use steps::Units;

// The factor in year 0, and the factor in millionths of an inflation of 0.
const AT_ONCE: u64 = 1_000_000_000_000;

const NO_GROWTH: u64 = 1_000_000;

// The factor for a rate and a year.
pub fn stepped(rate: u64, year: u64) -> u64
    requires { rate ≤ largest_rate }
    ensures { result ≡ present_worth rate year }
{
    let discount = Divisor::of(1_000_000 + rate);
    Units(AT_ONCE).plain_years(NO_GROWTH, discount, year).0
}
