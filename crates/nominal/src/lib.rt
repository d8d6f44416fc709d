// Money of the year, in cents: document 02, request 2, its second list. A rate is given by its factor in millionths; `general` is 1,000,000 +
// general inflation. Nothing here is a public call: `Cents` and `paid_once` serve the crates above, which meet what they require.

#![tactic(auto)]

ghost use Rattle.std.specs.Prelude.{◌≡◌, ◌≤◌, ◌*◌};
ghost use Rattle.steps.specs.Step.{repeated};
ghost use Rattle.steps.specs.Payment.{once};
ghost use Rattle.nominal.specs.Nominal.{risen, nominal_plain, nominal_in_service, cents, last_nominal};
ghost use Rattle.nominal.specs.Fit.{most_cents, CentsFit};

// An amount in cents of the year in which it is paid. It is no present value: nothing takes it together with `Units`.
#[derive(Clone, Copy)]
pub struct Cents(pub u64);

// A rate, rounded up to a whole cent.
#[tactic(auto, unfolding(crate::specs::Nominal::risen))]
fn risen(a: u64, factor: u64) -> u64
    requires { (a ≤ 6_000_000_000_000) × (factor ≤ 1_300_000) }
    ensures { result ≡ risen factor a }
{
    steps::up(a * factor, 1_000_000)
}

impl Cents {
    // One year forward: general inflation, then its own.
    #[tactic(auto, unfolding(crate::specs::Nominal::nominal_plain))]
    fn plain(self, general: u64, grow: u64) -> Cents
        requires { CentsFit general grow self.0 }
        ensures { result.0 ≡ nominal_plain general grow self.0 }
    {
        Cents(risen(risen(self.0, general), grow))
    }

    // One year forward in service: the ageing first.
    #[tactic(auto, unfolding(crate::specs::Nominal::nominal_plain, crate::specs::Nominal::nominal_in_service))]
    pub fn in_service(self, general: u64, grow: u64, age: u64) -> Cents
        requires { CentsFit general grow self.0 × (age ≤ 1_300_000) }
        ensures { result.0 ≡ nominal_in_service general grow age self.0 }
    {
        Cents(risen(risen(risen(self.0, age), general), grow))
    }

    // That many years forward, from an amount of a sheet.
    #[tactic(auto, unfolding(steps::specs::Step::repeated))]
    fn plain_years(self, general: u64, grow: u64, years: u64) -> Cents
        requires { CentsFit general grow self.0 × (self.0 ≤ most_cents 0) × (years ≤ last_nominal) }
        ensures { result.0 ≡ repeated years (nominal_plain general grow) self.0 }
    {
        let mut now = self;
        for _ in 0..years {
            now = now.plain(general, grow);
        }
        now
    }
}

// An amount paid once, in a year, in cents of that year.
#[tactic(auto, unfolding(crate::specs::Nominal::cents, steps::specs::Payment::once, steps::specs::Step::repeated))]
pub fn paid_once(amount: u64, grow: u64, general: u64, year: u64) -> Cents
    requires { CentsFit general grow (amount * 100) × (amount ≤ 1_000_000_000) × (year ≤ last_nominal) }
    ensures { result.0 ≡ cents general (once amount grow year) }
{
    Cents(amount * 100).plain_years(general, grow, year)
}
