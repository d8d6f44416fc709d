// Whether plan bytes are a feasible chain of a sheet: row 14 of document 01's refusal table.

ghost use Rattle.std.specs.Prelude.{◌≡◌, ◌+◌, ◌*◌, ◌≤◌, length};
ghost use Rattle.sheet.specs.Sheet.{PlanningSheet};
ghost use Rattle.sheet.specs.Parsed.{parsed};
ghost use Rattle.chain.specs.PlanBytes.{plan_size, ends_at, shaped};
ghost use Rattle.pricing.specs.Fitting.{reaches, fitting};

use base::{Activity, numbers};
use chain::reading;
use sheet::Sheet;

// Whether the bytes have a plan's length, mark and version.
#[tactic(auto, using(crate::proofs::FittingLaws::mark_read), unfolding(chain::specs::PlanBytes::shaped))]
fn shaped(plan: &[u8]) -> bool
    ensures { result ≡ shaped plan.now }
{
    if plan.len() < 19 {
        return false;
    }
    let m = reading::count_of(plan);
    let version = numbers::u16_at(plan, 3);
    19 + 2 * m == plan.len() && plan.starts_with(b"RCP") && version == 1
}

// Whether replacements lead from a year to the horizon: that many, whose ends stand from byte 19 on.
#[tactic(auto, using(crate::proofs::EndsLaws::reaching))]
fn reaches(sheet: Sheet, start: u64, plan: &[u8], count: usize) -> bool
    requires { plan_size count ≤ length plan.now }
    ensures { (p : PlanningSheet) → sheet ≡ parsed p → result ≡ reaches p start (ends_at plan.now 19 count) }
{
    let mut year = start;
    for k in 0..count {
        let end = reading::end_at(plan, k);
        if !costing::offer::offered(sheet, Activity::Replace as u64, year, end) {
            return false;
        }
        year = end;
    }
    year == sheet.horizon
}

// Whether plan bytes are a feasible chain of the sheet.
#[tactic(auto, using(crate::proofs::FittingLaws::parts_of_fitting))]
pub fn plan_fits(sheet: Sheet, plan: &[u8]) -> bool
    ensures { (p : PlanningSheet) → sheet ≡ parsed p → result ≡ fitting p plan.now }
{
    if !shaped(plan) {
        return false;
    }
    let i = reading::i_of(plan);
    if !costing::offer::offered(sheet, Activity::Maintain as u64, 0, i) {
        return false;
    }
    let j = reading::j_of(plan);
    if !costing::offer::offered(sheet, Activity::Renovate as u64, i, j) {
        return false;
    }
    let count = reading::count_of(plan);
    reaches(sheet, j, plan, count)
}
