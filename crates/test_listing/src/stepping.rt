// Document 01, 'One year's step', rounded up as request 1 asks. Past the limits of a sheet the products would be wrong, and differences be printed.

use crate::figures::Yearly;

// amount × growth / (1,000,000 + rate), rounded up: a unit more where a rest is left.
fn up(amount: u64, growth: u64, rate: u64) -> u64 {
    let divisor = 1_000_000 + rate.min(200_000);
    amount.wrapping_mul(growth).div_ceil(divisor)
}

pub fn units(amount: u64) -> u64 {
    amount.wrapping_mul(10_000)
}

// After that many plain steps.
pub fn plain(amount: u64, growth: u64, rate: u64, years: u64) -> u64 {
    (0..years).fold(amount, |a, _| up(a, growth, rate))
}

// After that many in-service steps: each ages the amount, and then takes the plain step.
pub fn in_service(amount: u64, y: Yearly, rate: u64, years: u64) -> u64 {
    (0..years).fold(amount, |a, _| up(up(a, y.ageing, 0), y.growth, rate))
}
