// What an arc costs: document 01, 'What an arc costs', and document 02, requests 4 and 6.
// The public call is `cost`. The structs with their methods, `keeps_motors`, `pays_removal`, `kept_of`, `arc_cost` and `offer::offered` serve
// the crates above. Those that take an option's number answer for every number, also for one that names no activity.

#![tactic(auto)]

ghost use Rattle.std.specs.Prelude.{◌≡◌, ◌↔◌, ◌-◌, ◌*◌, ◌≤◌, IsOk, IfOk};
ghost use Rattle.base.specs.Outcome.{place, answer_of};
ghost use Rattle.sheet.specs.Sheet.{PlanningSheet, sheet_of};
ghost use Rattle.sheet.specs.Parsed.{parsed};
ghost use Rattle.checking.specs.Passes.{Passes};
ghost use Rattle.checking.specs.Fit.{Fit};
ghost use Rattle.costing.specs.Arc.{keeps_motors, pays_removal, since_of, kept_on, kept_of, kept_from, arc_of, cost};
ghost use Rattle.costing.specs.Offered.{Offered};
ghost use Rattle.costing.specs.Costing.{costed};
ghost use Rattle.costing.specs.Error.{WithinAllowance};
ghost use Rattle.costing.specs.Fit.{yearly};

use base::{Activity, Refusal};
use division::Divisor;
use sheet::{Sheet, Terms};
use steps::Units;

pub mod arc;
pub mod offer;

// An option kept from a year on: an arc whose end is not given yet. `discount` is 1,000,000 + the real discount rate, and `since` the year
// since which its motors are in service.
#[derive(Clone, Copy)]
pub struct Kept {
    pub terms: Terms,
    pub discount: u64,
    pub since: u64,
    pub from: u64,
}

// An arc so far: what it has cost, and where its running amounts stand.
#[derive(Clone, Copy)]
pub struct Walk {
    pub cost: Units,
    pub maintenance: Units,
    pub electricity: Units,
    pub years: u64,
}

// Whether an option goes on with the motors of year 0.
pub fn keeps_motors(option: u64) -> bool
    ensures { result ≡ keeps_motors option }
{
    option == Activity::Renovate as u64
}

// Whether an option pays removal where it ends before the horizon.
pub fn pays_removal(option: u64) -> bool
    ensures { result ≡ pays_removal option }
{
    (option == Activity::Renovate as u64) | (option == Activity::Replace as u64)
}

// The year since which the motors of an activity that starts in a year are in service.
fn since_of(activity: Activity, start: u64) -> u64
    ensures { result ≡ since_of (place activity) start }
{
    if keeps_motors(u64::from(activity)) {
        return 0;
    }
    start
}

// An option on its terms with motors in service since a year, kept from a year on: every `Kept` is made by this.
fn kept_on(terms: Terms, discount: u64, since: u64, start: u64) -> Kept
    ensures { result ≡ kept_on terms discount since start }
{
    Kept {
        terms,
        discount,
        since,
        from: start,
    }
}

// An activity of a parsed sheet, kept from a year on.
#[tactic(auto, using(base::proofs::OutcomeLaws::place_lt))]
pub fn kept_of(sheet: &Sheet, activity: Activity, start: u64) -> Kept
    ensures { result ≡ kept_of sheet.now (place activity) start }
{
    let terms = sheet.options[activity.place()];
    kept_on(terms, sheet.discount, since_of(activity, start), start)
}

impl Kept {
    // The same option, kept from another year, with new motors.
    pub fn starting(self, start: u64) -> Kept
        ensures { result ≡ kept_from self start }
    {
        let terms = self.terms;
        kept_on(terms, self.discount, start, start)
    }
}

// The cost of an arc of a parsed sheet that passes the checks: for the crates above, which parse a sheet once for many arcs.
pub fn arc_cost(sheet: Sheet, activity: Activity, start: u64, end: u64) -> Units
    requires { Fit sheet × (start ≤ end) × (end ≤ sheet.horizon) }
    ensures units { (p : PlanningSheet) → sheet ≡ parsed p → result.0 ≡ cost (arc_of p (place activity) start end) }
    ensures room { result.0 ≤ (end - start) * yearly }
{
    let kept = kept_of(&sheet, activity, start);
    kept.cost(
        Divisor::of(sheet.discount),
        pays_removal(u64::from(activity)),
        end - start,
        sheet.horizon,
    )
}

// The cost of an arc: of an option kept from year start to year end. Its option's record is read once.
pub fn cost(sheet: &[u8], option: u64, start: u64, end: u64) -> Result<u64, Refusal>
    ensures answer { answer_of result ≡ costed sheet.now option start end }
    ensures accepted { IsOk result ↔ (Passes sheet.now × Offered (sheet_of sheet.now) option start end) }
    ensures near { IfOk result (WithinAllowance (arc_of (sheet_of sheet.now) option start end)) }
{
    checking::check(sheet)?;
    // Of an option that is not known the record of replace is read; `offered_by` then refuses by the place.
    let activity = Activity::try_from(option).unwrap_or(Activity::Replace);
    let terms = sheet::terms_of(sheet, activity);
    let horizon = sheet::horizon_of(sheet);
    if !offer::offered_by(horizon, terms.shortest, terms.longest, option, start, end) {
        return Err(Refusal::NotOffered);
    }
    let discount = sheet::discount_of(sheet);
    let kept = kept_on(terms, discount, since_of(activity, start), start);
    let units = kept.cost(
        Divisor::of(discount),
        pays_removal(option),
        end - start,
        horizon,
    );
    Ok(units.0)
}
