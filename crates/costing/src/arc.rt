// An arc extended year by year, and closed: document 01, 'What an arc costs', and document 02, requests 4 and 6.

ghost use Rattle.std.specs.Prelude.{◌≡◌, ◌+◌, ◌*◌, ◌<◌, ◌≤◌, eqb};
ghost use Rattle.base.specs.Lists.{sum_of};
ghost use Rattle.steps.specs.Payment.{rounded, once};
ghost use Rattle.steps.specs.Fit.{PlainFits};
ghost use Rattle.costing.specs.Arc.{in_year, paid_if, paid, closes, closing, worth, whole_worth};
ghost use Rattle.costing.specs.Fit.{FlowSteps, Steppable};
ghost use Rattle.costing.specs.Walk.{overhauls_at, walk_at};

use crate::{Kept, Walk};
use division::Divisor;
use sheet::Flow;
use steps::{Units, paid_once};

// What an overhaul costs in year n of an arc, from 0: nothing unless n is its age.
fn overhaul_at(age: u64, amount: u64, grow: u64, discount: Divisor, from: u64, n: u64) -> Units
    requires plain_fits { PlainFits grow discount.by (amount * 10_000) }
    requires from_bound { (from ≤ 300) × (n ≤ 300) }
    ensures { result.0 ≡ sum_of (rounded discount.by) (paid_if (eqb age n) (once amount grow (from + age))) }
{
    if age == n {
        return paid_once(amount, grow, discount, from + n);
    }
    Units(0)
}

// Where the running amount of a flow stands at the start of an arc from a year, if the flow is in service since that year or an earlier one.
pub fn running(flow: Flow, discount: Divisor, since: u64, from: u64) -> Units
    requires { FlowSteps discount flow × (since ≤ from) × (from ≤ 300) }
    ensures { result.0 ≡ rounded discount.by (in_year flow since from 0) }
{
    let served = from - since;
    let new = paid_once(flow.amount, flow.grow, discount, since);
    new.service_years(flow.grow, flow.age, discount, served)
}

impl Kept {
    // What the overhauls of age n cost. The lists are locals: indexed where they lie, the whole record is copied in every year of an arc, which then
    // takes twice as long.
    fn overhauls_at(self, discount: Divisor, n: u64) -> Units
        requires { Steppable self discount × (n ≤ 300) }
        ensures { result.0 ≡ worth self (overhauls_at self n) }
    {
        let terms = self.terms;
        let overhauls = terms.overhauls;
        let ages = overhauls.ages;
        let amounts = overhauls.amounts;
        let count = overhauls.count as usize;
        let mut sum = 0;
        for j in 0..count {
            sum += overhaul_at(ages[j], amounts[j], overhauls.grow, discount, self.from, n).0;
        }
        Units(sum)
    }

    // The arc before its first year: the investment is paid, and the running amounts stand at the start.
    pub fn open(self, discount: Divisor) -> Walk
        requires { Steppable self discount }
        ensures { result ≡ walk_at self 0 }
    {
        let terms = self.terms;
        let i = terms.investment;
        let m = terms.maintenance;
        Walk {
            cost: paid_once(i.amount, i.grow, discount, self.from),
            maintenance: paid_once(m.amount, m.grow, discount, self.from),
            electricity: running(terms.electricity, discount, self.since, self.from),
            years: 0,
        }
    }

    // What an arc of that many years pays, but for its removal.
    #[tactic(auto, using(crate::proofs::WalkLaws::paid_free))]
    fn paid(self, discount: Divisor, years: u64) -> Units
        requires { Steppable self discount × (years ≤ 300) }
        ensures { result.0 ≡ worth self (paid self years) }
    {
        if years == 0 {
            return Units(0);
        }
        let mut walk = self.open(discount);
        for n in 0..years {
            walk = walk.year(self, discount, self.overhauls_at(discount, n));
        }
        walk.cost
    }

    // Whether an arc of that many years pays removal when it ends, if its option pays one at all.
    pub fn closes(self, removed: bool, years: u64, horizon: u64) -> bool
        requires { (self.from ≤ 300) × (years ≤ 300) }
        ensures { result ≡ closes self removed years horizon }
    {
        removed & (0 < years) & (self.from + years < horizon)
    }

    // What such an arc pays when it ends. A removal of 0 takes no steps.
    fn closing(self, discount: Divisor, removed: bool, years: u64, horizon: u64) -> Units
        requires { Steppable self discount × (years ≤ 300) }
        ensures { result.0 ≡ worth self (closing self removed years horizon) }
    {
        let terms = self.terms;
        let removal = terms.removal;
        if removal.amount == 0 {
            return Units(0);
        }
        if self.closes(removed, years, horizon) {
            return paid_once(removal.amount, removal.grow, discount, self.from + years);
        }
        Units(0)
    }

    // The cost of such an arc.
    pub fn cost(self, discount: Divisor, removed: bool, years: u64, horizon: u64) -> Units
        requires { Steppable self discount × (years ≤ 300) }
        ensures { result.0 ≡ whole_worth self removed years horizon }
    {
        let paid = self.paid(discount, years);
        let closing = self.closing(discount, removed, years, horizon);
        let sum = paid.0 + closing.0;
        Units(sum)
    }
}

impl Walk {
    // One year more; `due` is what the overhauls of that year cost.
    pub fn year(self, kept: Kept, discount: Divisor, due: Units) -> Walk
        requires steppable { Steppable kept discount × (self.years < 300) }
        requires self_value { self ≡ walk_at kept self.years }
        requires due_value { due.0 ≡ worth kept (overhauls_at kept self.years) }
        ensures { result ≡ walk_at kept (self.years + 1) }
    {
        let terms = kept.terms;
        let m = terms.maintenance;
        let e = terms.electricity;
        let cost = self.cost;
        let maintenance = self.maintenance.in_service(m.grow, m.age, discount);
        let electricity = self.electricity.in_service(e.grow, e.age, discount);
        let sum = cost.0 + due.0 + maintenance.0 + electricity.0;
        let years = self.years + 1;
        Walk {
            cost: Units(sum),
            maintenance,
            electricity,
            years,
        }
    }
}
