// What the chain in plan bytes pays in each year, arc by arc. Only the order of its years is asked, not which lives the sheet offers.

ghost use Rattle.std.specs.Prelude.{◌≡◌, ℕ, ◌+◌, ◌*◌, ◌<◌, ◌≤◌, length, get_or};
ghost use Rattle.std.proofs.lemmas.List.Edits.{sets};
ghost use Rattle.base.specs.Outcome.{place};
ghost use Rattle.sheet.specs.Sheet.{PlanningSheet};
ghost use Rattle.sheet.specs.Parsed.{parsed};
ghost use Rattle.costing.specs.Arc.{arc_of, payments};
ghost use Rattle.costing.specs.Fit.{yearly};
ghost use Rattle.chain.specs.Chain.{replacements, arcs_of, arcs, Feasible};
ghost use Rattle.chain.specs.PlanBytes.{plan_size, ends_at, decode};
ghost use Rattle.chain.specs.Ordered.{Climbs};
ghost use Rattle.spreading.specs.Raised.{Raised};
ghost use Rattle.spreading.specs.Asks.{Room};
ghost use Rattle.budget.specs.Budget.{payments_of, units_of, cents_of};
ghost use Rattle.budget.specs.Asks.{ListAsks, PlanAsks, FillAsks};

use base::Activity;
use chain::reading;
use division::Divisor;
use sheet::Sheet;
use spreading::{Ledger, Money};

// Clears the words of the years 0 to last.
fn clear(words: &mut [u64], last: u64)
    requires { last < length words.old }
    ensures cleared { (y : ℕ) → y ≤ last → get_or words.new y 0 ≡ 0 }
    ensures behind { (y : ℕ) → last < y → get_or words.new y 0 ≡ get_or words.old y 0 }
{
    words[..=last as usize].fill(0);
}

// Adds what an activity of the sheet pays.
fn add_activity<L: Ledger>(
    words: &mut [u64],
    sheet: &Sheet,
    ledger: L,
    activity: Activity,
    start: u64,
    end: u64,
)
    requires list_asks { ListAsks (L.ready ledger) (L.counts ledger) words.old sheet.now start }
    requires in_order { (start ≤ end) × (end ≤ sheet.now.horizon) }
    ensures paid { (p : PlanningSheet) → sheet.now ≡ parsed p → Raised (L.figure ledger) words.old words.new (payments (arc_of p (place activity) start end)) }
    ensures room { Room (L.counts ledger) words.new sheet.now.horizon (end * yearly) }
{
    // An activity of length 0 pays nothing.
    if start == end {
        return;
    }
    let kept = costing::kept_of(sheet, activity, start);
    let removed = costing::pays_removal(u64::from(activity));
    spreading::add_arc(words, kept, ledger, removed, end - start, sheet.horizon);
}

// Adds what replacements from a year on pay: that many, whose ends stand from byte 19 on.
fn add_replacements<L: Ledger>(
    words: &mut [u64],
    sheet: &Sheet,
    ledger: L,
    start: u64,
    plan: &[u8],
    count: usize,
)
    requires list_asks { ListAsks (L.ready ledger) (L.counts ledger) words.old sheet.now start × (plan_size count ≤ length plan.now) }
    requires climbs { Climbs sheet.now.horizon start (ends_at plan.now 19 count) }
    ensures { (p : PlanningSheet) → sheet.now ≡ parsed p → Raised (L.figure ledger) words.old words.new (payments_of (arcs_of p (replacements start (ends_at plan.now 19 count)))) }
{
    let mut year = start;
    for k in 0..count {
        let end = reading::end_at(plan, k);
        add_activity(words, sheet, ledger, Activity::Replace, year, end);
        year = end;
    }
}

// Adds what the chain pays, as a ledger counts it.
fn add_chain<L: Ledger>(words: &mut [u64], sheet: &Sheet, ledger: L, plan: &[u8])
    requires { ListAsks (L.ready ledger) (L.counts ledger) words.old sheet.now 0 × PlanAsks plan.now sheet.now.horizon }
    ensures { (p : PlanningSheet) → sheet.now ≡ parsed p → Raised (L.figure ledger) words.old words.new (payments_of (arcs p (decode plan.now))) }
{
    let i = reading::i_of(plan);
    let j = reading::j_of(plan);
    let count = reading::count_of(plan);
    add_activity(words, sheet, ledger, Activity::Maintain, 0, i);
    add_activity(words, sheet, ledger, Activity::Renovate, i, j);
    add_replacements(words, sheet, ledger, j, plan, count);
}

// Writes what the chain pays in the years 0 to T, and in cents to year 15, or to T if sooner.
pub fn fill(units: &mut [u64], cents: &mut [u64], sheet: Sheet, general: u64, plan: &[u8])
    requires { FillAsks units.old cents.old sheet general × PlanAsks plan.now sheet.horizon }
    ensures units { (p : PlanningSheet) → sheet ≡ parsed p → Feasible p (decode plan.now) → units.new ≡ sets units.old 0 (units_of p (decode plan.now)) }
    ensures cents { (p : PlanningSheet) → sheet ≡ parsed p → cents.new ≡ sets cents.old 0 (cents_of p general (decode plan.now)) }
{
    let discount = Divisor::of(sheet.discount);
    let money = Money {
        general: 1_000_000 + general,
        last: crate::last_in_cents(sheet.horizon),
    };
    clear(units, sheet.horizon);
    clear(cents, money.last);
    add_chain(units, &sheet, discount, plan);
    add_chain(cents, &sheet, money, plan);
}
