// One year's step, and what a payment is worth: document 01, 'One year's step', rounded up. A rate is given by its factor in millionths; the
// discount factor as a divisor. Nothing here is a public call: `Units`, `up` and `paid_once` serve the crates above, which meet what they
// require.

#![tactic(auto)]

ghost use Rattle.std.specs.Prelude.{◌≡◌, ◌<◌, ◌≤◌, ◌+◌, ◌*◌};
ghost use Rattle.steps.specs.Step.{divided, plain, in_service, repeated};
ghost use Rattle.steps.specs.Payment.{rounded, once};
ghost use Rattle.steps.specs.Fit.{PlainFits, ServiceFits};

use division::Divisor;

// A present value in units: a currency unit is 10,000 of them.
#[derive(Clone, Copy)]
pub struct Units(pub u64);

// n / d, rounded up to a whole number. It divides once; std's `div_ceil` takes the remainder too.
pub fn up(n: u64, d: u64) -> u64
    requires { (0 < d) × (d ≤ 1_300_000) × (n ≤ 15_000_000_000_000_000_000) }
    ensures { result ≡ divided n d }
{
    (n + (d - 1)) / d
}

// The same, by a divisor that is at hand.
fn up_by(n: u64, d: Divisor) -> u64
    requires { n ≤ 15_000_000_000_000_000_000 }
    ensures { result ≡ divided n d.by }
{
    d.quotient(n + (d.by - 1))
}

impl Units {
    // One year forward.
    pub fn plain(self, grow: u64, discount: Divisor) -> Units
        requires { PlainFits grow discount.by self.0 }
        ensures { result.0 ≡ plain grow discount.by self.0 }
    {
        Units(up_by(self.0 * grow, discount))
    }

    // One year forward in service: the ageing first.
    pub fn in_service(self, grow: u64, age: u64, discount: Divisor) -> Units
        requires { ServiceFits grow age discount.by self.0 }
        ensures { result.0 ≡ in_service grow age discount.by self.0 }
    {
        let aged = up(self.0 * age, 1_000_000);
        Units(up_by(aged * grow, discount))
    }

    // That many years forward.
    pub fn plain_years(self, grow: u64, discount: Divisor, years: u64) -> Units
        requires { PlainFits grow discount.by self.0 }
        ensures { result.0 ≡ repeated years (plain grow discount.by) self.0 }
    {
        let mut now = self;
        for k in 0..years {
            now = now.plain(grow, discount);
        }
        now
    }

    // That many years forward in service.
    pub fn service_years(self, grow: u64, age: u64, discount: Divisor, years: u64) -> Units
        requires { ServiceFits grow age discount.by (self.0 + years) }
        ensures { result.0 ≡ repeated years (in_service grow age discount.by) self.0 }
    {
        let mut now = self;
        for k in 0..years {
            now = now.in_service(grow, age, discount);
        }
        now
    }
}

// The present value of an amount paid once, in a year.
pub fn paid_once(amount: u64, grow: u64, discount: Divisor, year: u64) -> Units
    requires { PlainFits grow discount.by (amount * 10_000) }
    ensures { result.0 ≡ rounded discount.by (once amount grow year) }
{
    Units(amount * 10_000).plain_years(grow, discount, year)
}
