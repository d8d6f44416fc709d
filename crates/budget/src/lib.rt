// What a plan pays year by year: document 02, request 2. The public call is `budget`.

#![tactic(auto)]

ghost use Rattle.std.specs.Prelude.{◌≡◌};
ghost use Rattle.base.specs.Outcome.{answer_of};
ghost use Rattle.budget.specs.Budget.{last_in_cents, roomy, budget_answer, units_after, cents_after};
ghost use Rattle.budget.specs.Promises.{PromisedBudget};

use base::Refusal;

mod filling;

// General inflation is at most 5 per cent a year.
const LARGEST_INFLATION: u64 = 50_000;

// The last year in cents: 15, or T if sooner.
fn last_in_cents(horizon: u64) -> u64
    ensures { result ≡ last_in_cents horizon }
{
    horizon.min(15)
}

// Whether both lists are long enough, by their numbers of words.
fn roomy(horizon: u64, units: usize, cents: usize) -> bool
    ensures { result ≡ roomy horizon units cents }
{
    (horizon < units as u64) & (last_in_cents(horizon) < cents as u64)
}

// Writes what the chain in plan bytes pays in each year: present values in units, and the first years in cents of the year. It answers the priced
// total.
pub fn budget(
    sheet: &[u8],
    plan: &[u8],
    general: u64,
    units: &mut [u64],
    cents: &mut [u64],
) -> Result<u64, Refusal>
    ensures answer { answer_of result ≡ budget_answer sheet.now plan.now general units.old cents.old }
    ensures units { units.new ≡ units_after sheet.now plan.now general units.old cents.old }
    ensures cents { cents.new ≡ cents_after sheet.now plan.now general units.old cents.old }
    ensures promised { PromisedBudget sheet.now plan.now general units.old cents.old (answer_of result) units.new cents.new }
{
    let total = pricing::price(sheet, plan)?;
    if LARGEST_INFLATION < general {
        return Err(Refusal::GeneralInflation);
    }
    let parsed = sheet::parse(sheet);
    if !roomy(parsed.horizon, units.len(), cents.len()) {
        return Err(Refusal::ListLength);
    }
    filling::fill(units, cents, parsed, general, plan);
    Ok(total)
}
