// The C forms: each calls its Rattle form and packs the answer into one u64. A slice is a pointer and then a length.
// The declarations for C are in include/nimovalsa.h.
//
// This page is all that is claimed of the six calls, for every input. The names below say where each definition stands. Of a buffer that is
// written `x.old` is what it holds before the call and `x.new` after it; `x.now` is what a slice that is only read holds; `answer_in r` is the
// total, number and option in what is returned.

#![tactic(auto)]

ghost use Rattle.std.specs.Prelude.{◌≡◌, ◌↔◌, ℕ};
ghost use Rattle.base.specs.Answer.{Packs};
ghost use Rattle.sheet.specs.Sheet.{sheet_of};
ghost use Rattle.checking.specs.Refusals.{checked};
ghost use Rattle.checking.specs.Passes.{Passes};
ghost use Rattle.costing.specs.Arc.{arc_of};
ghost use Rattle.costing.specs.Offered.{Offered};
ghost use Rattle.costing.specs.Costing.{costed};
ghost use Rattle.costing.specs.Error.{WithinAllowance};
ghost use Rattle.chain.specs.Error.{TotalNear};
ghost use Rattle.chain.specs.PlanBytes.{decode};
ghost use Rattle.pricing.specs.Pricing.{priced, PricedAt};
ghost use Rattle.planning.specs.Planning.{plan_answer, plan_after, words_after};
ghost use Rattle.planner.specs.Promises.{Promised};
ghost use Rattle.budget.specs.Budget.{budget_answer, units_after, cents_after};
ghost use Rattle.budget.specs.Promises.{PromisedBudget};
ghost use Rattle.yearbook.specs.Yearbook.{factor_answer};
ghost use Rattle.yearbook.specs.Promises.{PromisedFactor};
ghost use Rattle.nimovalsa.specs.Packed.{answer_in, Returns};

use base::Answer;

// The answer as one u64.
fn pack(a: Answer) -> u64
    requires { Packs a }
    ensures { Returns result a }
{
    a.total * 256 + u64::from(a.number) * 4 + u64::from(a.option)
}

// Checking a sheet: total 0, and the number and the option of the refusal table.
#[unsafe(no_mangle)]
pub extern "C" fn nimovalsa_check(sheet: &[u8]) -> u64
    ensures answer { Returns result (checked sheet.now) }
    ensures accepted { ((answer_in result).number ≡ 0) ↔ Passes sheet.now }
{
    pack(Answer::from(checking::check(sheet)))
}

// Costing an arc: its cost in units, and the number and the option of the refusal table.
#[unsafe(no_mangle)]
pub extern "C" fn nimovalsa_cost(sheet: &[u8], option: u64, start: u64, end: u64) -> u64
    ensures answer { Returns result (costed sheet.now option start end) }
    ensures accepted { ((answer_in result).number ≡ 0) ↔ (Passes sheet.now × Offered (sheet_of sheet.now) option start end) }
    ensures near { (answer_in result).number ≡ 0 → WithinAllowance (arc_of (sheet_of sheet.now) option start end) (answer_in result).total }
{
    pack(Answer::from(costing::cost(sheet, option, start, end)))
}

// Pricing a plan: the rounded total of its chain in units, and the number and the option of the refusal table.
#[unsafe(no_mangle)]
pub extern "C" fn nimovalsa_price(sheet: &[u8], plan: &[u8]) -> u64
    ensures answer { Returns result (priced sheet.now plan.now) }
    ensures accepted { (total : ℕ) → (((answer_in result).number ≡ 0) × ((answer_in result).total ≡ total)) ↔ PricedAt sheet.now plan.now total }
    ensures near { (answer_in result).number ≡ 0 → TotalNear (sheet_of sheet.now) (decode plan.now) (answer_in result).total }
{
    pack(Answer::from(pricing::price(sheet, plan)))
}

// Planning: the rounded total of the chosen chain in units, and the number and the option of the refusal table. The plan of the chain is
// written, and the words.
#[unsafe(no_mangle)]
pub extern "C" fn nimovalsa_plan(sheet: &[u8], plan: &mut [u8], words: &mut [u64]) -> u64
    ensures answer { Returns result (plan_answer sheet.now plan.old words.old) }
    ensures plan { plan.new ≡ plan_after sheet.now plan.old words.old }
    ensures words { words.new ≡ words_after sheet.now plan.old words.old }
    ensures promised { Promised sheet.now plan.old words.old (answer_in result) plan.new words.new }
{
    pack(Answer::from(planner::plan(sheet, plan, words)))
}

// The budget by year: the priced total of the plan in units, and the number and the option of the refusal table. What the chain pays in each
// year is written, in units, and for the first years in cents of the year.
#[unsafe(no_mangle)]
pub extern "C" fn nimovalsa_budget(
    sheet: &[u8],
    plan: &[u8],
    general: u64,
    units: &mut [u64],
    cents: &mut [u64],
) -> u64
    ensures answer { Returns result (budget_answer sheet.now plan.now general units.old cents.old) }
    ensures units { units.new ≡ units_after sheet.now plan.now general units.old cents.old }
    ensures cents { cents.new ≡ cents_after sheet.now plan.now general units.old cents.old }
    ensures promised { PromisedBudget sheet.now plan.now general units.old cents.old (answer_in result) units.new cents.new }
{
    pack(Answer::from(budget::budget(sheet, plan, general, units, cents)))
}

// The yearbook: the present-worth factor for a rate and a year, 10^12 standing for 1, and the number and the option of the refusal table.
#[unsafe(no_mangle)]
pub extern "C" fn nimovalsa_factor(rate: u64, year: u64) -> u64
    ensures answer { Returns result (factor_answer rate year) }
    ensures promised { PromisedFactor rate year (answer_in result) }
{
    pack(Answer::from(yearbook::factor(rate, year)))
}
