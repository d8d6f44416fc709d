// What the chain in plan bytes costs, if they are a feasible chain: document 01, 'Pricing and costing'.
// The public call is `price`.

#![tactic(auto)]

ghost use Rattle.std.specs.Prelude.{◌≡◌, ◌↔◌, ℕ, Ok, IfOk};
ghost use Rattle.base.specs.Outcome.{answer_of};
ghost use Rattle.sheet.specs.Sheet.{sheet_of};
ghost use Rattle.chain.specs.Error.{TotalNear};
ghost use Rattle.chain.specs.PlanBytes.{decode};
ghost use Rattle.pricing.specs.Pricing.{priced, PricedAt};

use base::Refusal;

mod fitting;
mod total;

// The rounded total of the chain in plan bytes, whoever made them.
pub fn price(sheet: &[u8], plan: &[u8]) -> Result<u64, Refusal>
    ensures answer { answer_of result ≡ priced sheet.now plan.now }
    ensures accepted { (total : ℕ) → (result ≡ Ok total) ↔ PricedAt sheet.now plan.now total }
    ensures near { IfOk result (TotalNear (sheet_of sheet.now) (decode plan.now)) }
{
    checking::check(sheet)?;
    let parsed = sheet::parse(sheet);
    if !fitting::plan_fits(parsed, plan) {
        return Err(Refusal::NotAChain);
    }
    let units = total::plan_total(parsed, plan);
    Ok(units.0)
}
