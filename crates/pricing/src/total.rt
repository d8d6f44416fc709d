// What the chain in plan bytes costs. Only the order of its years is asked, not which lives the sheet offers.

ghost use Rattle.std.specs.Prelude.{◌≡◌, ◌+◌, ◌*◌, ◌≤◌, length};
ghost use Rattle.sheet.specs.Sheet.{PlanningSheet};
ghost use Rattle.sheet.specs.Parsed.{parsed};
ghost use Rattle.checking.specs.Fit.{Fit};
ghost use Rattle.costing.specs.Fit.{yearly};
ghost use Rattle.chain.specs.Chain.{replacements, spent, rounded_total};
ghost use Rattle.chain.specs.PlanBytes.{plan_size, count_field, ends_at, decode};
ghost use Rattle.chain.specs.Ordered.{Climbs, Ordered};

use base::Activity;
use chain::reading;
use sheet::Sheet;
use steps::Units;

// What replacements from a year on cost: that many, whose ends stand from byte 19 on.
#[tactic(auto, using(crate::proofs::EndsLaws::spending))]
fn replaced(sheet: Sheet, start: u64, plan: &[u8], count: usize) -> Units
    requires fit { Fit sheet × (plan_size count ≤ length plan.now) }
    requires climbs { Climbs sheet.horizon start (ends_at plan.now 19 count) }
    ensures units { (p : PlanningSheet) → sheet ≡ parsed p → result.0 ≡ spent p (replacements start (ends_at plan.now 19 count)) }
    ensures room { result.0 + start * yearly ≤ sheet.horizon * yearly }
{
    let mut year = start;
    let mut sum = 0;
    for k in 0..count {
        let end = reading::end_at(plan, k);
        sum += costing::arc_cost(sheet, Activity::Replace, year, end).0;
        year = end;
    }
    Units(sum)
}

// The rounded total of the chain.
#[tactic(auto, using(crate::proofs::EndsLaws::total_read))]
pub fn plan_total(sheet: Sheet, plan: &[u8]) -> Units
    requires fit { Fit sheet × (plan_size (count_field plan.now) ≤ length plan.now) }
    requires ordered { Ordered sheet.horizon (decode plan.now) }
    ensures { (p : PlanningSheet) → sheet ≡ parsed p → result.0 ≡ rounded_total p (decode plan.now) }
{
    let i = reading::i_of(plan);
    let j = reading::j_of(plan);
    let count = reading::count_of(plan);
    let maintained = costing::arc_cost(sheet, Activity::Maintain, 0, i);
    let renovated = costing::arc_cost(sheet, Activity::Renovate, i, j);
    let replacements = replaced(sheet, j, plan, count);
    let later = renovated.0 + replacements.0;
    let sum = maintained.0 + later;
    Units(sum)
}
