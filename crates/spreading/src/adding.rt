// An arc, payment by payment, added to the words of the years that its ledger counts.

ghost use Rattle.std.specs.Prelude.{◌≡◌, [], ◌∷◌, ◌++◌, ◌+◌, ◌^◌, ◌<◌, ◌≤◌, true, length, get_or};
ghost use Rattle.steps.specs.Payment.{once};
ghost use Rattle.costing.specs.Arc.{in_year, overhauls_below, paid, closing};
ghost use Rattle.costing.specs.Fit.{KeptFits};
ghost use Rattle.spreading.specs.Raised.{RaisedIn, Raised, flow_paid};
ghost use Rattle.spreading.specs.Asks.{before_payment, before_arc, Room, Payable, FlowPasses, ArcAsks};

use crate::Ledger;
use costing::Kept;
use sheet::Flow;

// Adds an amount of a ledger to the word of a year. It takes the amounts of that ledger alone: no other number gets into its words.
#[tactic(auto, using(crate::proofs::RaisedLaws::set_raised))]
fn add<L: Ledger>(words: &mut [u64], year: u64, value: L::Amount)
    requires { (year < length words.old) × (get_or words.old year 0 + L.number value < 2 ^ 64) }
    ensures { RaisedIn words.old words.new year (L.number value) }
{
    words[year as usize] += L::number(value);
}

// Adds an amount paid once, unless its year is not counted.
fn add_once<L: Ledger>(words: &mut [u64], ledger: L, amount: u64, grow: u64, year: u64)
    requires { Payable (L.ready ledger) (once amount grow year) × Room (L.counts ledger) words.old year before_payment × (year ≤ 600) }
    ensures { Raised (L.figure ledger) words.old words.new (once amount grow year ∷ []) }
{
    if ledger.counts(year) {
        let value = ledger.paid_once(amount, grow, year);
        add::<L>(words, year, value);
    }
}

// Adds the overhauls of an arc: those of an age below its length.
fn add_overhauls<L: Ledger>(words: &mut [u64], kept: Kept, ledger: L, years: u64)
    requires { KeptFits kept × L.ready ledger kept.discount × (years ≤ 300) × Room (L.counts ledger) words.old (kept.from + years) before_arc }
    ensures { Raised (L.figure ledger) words.old words.new (overhauls_below kept years) }
{
    let overhauls = &kept.terms.overhauls;
    for j in 0..overhauls.count as usize {
        let age = overhauls.ages[j];
        if age < years {
            add_once(
                words,
                ledger,
                overhauls.amounts[j],
                overhauls.grow,
                kept.from + age,
            );
        }
    }
}

// Where the running amount of a flow stands in a year that is counted, if the flow is in service since that year or an earlier one.
fn running<L: Ledger>(ledger: L, flow: Flow, since: u64, year: u64) -> L::Amount
    requires { FlowPasses (L.ready ledger) flow × (since ≤ year) × (year ≤ 600) × (L.counts ledger year ≡ true) }
    ensures { L.number result ≡ L.figure ledger (in_year flow since year 0) }
{
    let mut amount = ledger.paid_once(flow.amount, flow.grow, since);
    for _ in since..year {
        amount = ledger.in_service(flow, amount);
    }
    amount
}

// Adds what a flow in service since a year pays in the years of an arc, as far as they are counted.
fn add_flow<L: Ledger>(words: &mut [u64], ledger: L, flow: Flow, since: u64, from: u64, years: u64)
    requires { FlowPasses (L.ready ledger) flow × (since ≤ from) × (from ≤ 300) × (years ≤ 300) × Room (L.counts ledger) words.old (from + years) before_arc }
    ensures { Raised (L.figure ledger) words.old words.new (flow_paid flow since from years) }
{
    if !ledger.counts(from) {
        return;
    }
    let mut amount = running(ledger, flow, since, from);
    for n in 0..years {
        if !ledger.counts(from + n + 1) {
            return;
        }
        amount = ledger.in_service(flow, amount);
        add::<L>(words, from + n + 1, amount);
    }
}

// Adds what an arc of that many years pays, but for its removal.
fn add_paid<L: Ledger>(words: &mut [u64], kept: Kept, ledger: L, years: u64)
    requires { ArcAsks (L.ready ledger) (L.counts ledger) words.old kept years }
    ensures { Raised (L.figure ledger) words.old words.new (paid kept years) }
{
    if years == 0 {
        return;
    }
    let investment = kept.terms.investment;
    add_once(words, ledger, investment.amount, investment.grow, kept.from);
    add_overhauls(words, kept, ledger, years);
    add_flow(
        words,
        ledger,
        kept.terms.maintenance,
        kept.from,
        kept.from,
        years,
    );
    add_flow(
        words,
        ledger,
        kept.terms.electricity,
        kept.since,
        kept.from,
        years,
    );
}

// Adds what such an arc pays when it ends.
fn add_closing<L: Ledger>(
    words: &mut [u64],
    kept: Kept,
    ledger: L,
    removed: bool,
    years: u64,
    horizon: u64,
)
    requires { KeptFits kept × L.ready ledger kept.discount × (years ≤ 300) × Room (L.counts ledger) words.old (kept.from + years) before_payment }
    ensures { Raised (L.figure ledger) words.old words.new (closing kept removed years horizon) }
{
    if kept.closes(removed, years, horizon) {
        let removal = kept.terms.removal;
        add_once(
            words,
            ledger,
            removal.amount,
            removal.grow,
            kept.from + years,
        );
    }
}

// Adds what an arc of that many years pays.
pub fn add_arc<L: Ledger>(
    words: &mut [u64],
    kept: Kept,
    ledger: L,
    removed: bool,
    years: u64,
    horizon: u64,
)
    requires { ArcAsks (L.ready ledger) (L.counts ledger) words.old kept years }
    ensures { Raised (L.figure ledger) words.old words.new (paid kept years ++ closing kept removed years horizon) }
{
    add_paid(words, kept, ledger, years);
    add_closing(words, kept, ledger, removed, years, horizon);
}
