// The choice of the end of one option, any option, by the totals behind the ends.
// Nothing here is a public call: the crates above meet what is required.

#![tactic(auto)]

ghost use Rattle.std.specs.Prelude.{◌≡◌, ◌+◌, ◌-◌, ◌^◌, ◌<◌, ◌≤◌, cond, unwrap_or, IfSome};
ghost use Rattle.choice.specs.Running.{no_total, weigh};
ghost use Rattle.weighing.specs.Best.{numbers};
ghost use Rattle.weighing.specs.Ends.{Walks, best_to, word_of, WordsBehind, CostsKnown, NextEnd};

use costing::Kept;
use division::Divisor;
use steps::Units;

pub mod ahead;
pub mod arcs;

// A least total, and the end of the first activity of the list that has it.
#[derive(Clone, Copy)]
pub struct Best {
    pub total: u64,
    pub end: u64,
}

// No total: no list leads to the horizon. A number and no Option, since the words that C lends hold it.
pub const NONE: u64 = 18_446_744_073_709_551_615;

// Nothing is chosen yet.
pub const NOTHING: Best = Best {
    total: NONE,
    end: 0,
};

// The better of the choice so far and an arc to year end, if that is offered, with a total behind it: of equal totals the later end.
#[tactic(auto, unfolding(choice::specs::Running::weigh))]
pub fn weigh(offered: bool, best: Best, cost: Units, end: u64, behind: u64) -> Best
    requires { (behind ≡ no_total → ⊥) → cost.0 + behind < 2 ^ 64 }
    ensures { result ≡ cond offered (weigh numbers best cost.0 end behind) best }
{
    if !offered {
        return best;
    }
    if behind == NONE {
        return best;
    }
    let units = cost.0;
    let total = units + behind;
    if total <= best.total {
        return Best { total, end };
    }
    best
}

// The choice so far after the ends of an option kept from a year, up to the horizon. The arc is extended by a year from the last.
pub fn best_end(
    words: &[u64],
    streams: &[u64],
    ages: &[u64; 8],
    kept: Kept,
    discount: Divisor,
    horizon: u64,
    best: Best,
) -> Best
    requires { Walks kept discount horizon streams.now ages.now × WordsBehind kept horizon words.now }
    ensures { result ≡ best_to kept horizon (word_of words.now) best }
{
    let from = kept.from;
    let top = kept.terms.longest.min(horizon - from);
    let mut chosen = best;
    let mut walk = streams::open(streams, kept, streams::power(streams, kept), horizon);
    let mut next: usize = 0;
    for n in 0..top {
        let due = streams::due(streams, ages, kept, horizon, next, n);
        walk = walk.year(kept, discount, due.units);
        next = due.next;
        let end = from + n + 1;
        chosen = weigh(
            kept.terms.shortest <= n + 1,
            chosen,
            walk.cost,
            end,
            words[end as usize],
        );
    }
    chosen
}

// The first n from one place up to another for which the arc of n + 1 years, with the total behind its end, is at most a total.
fn next_end(
    words: &[u64],
    costs: &[u64],
    kept: Kept,
    horizon: u64,
    first: u64,
    until: u64,
    total: u64,
) -> Option<u64>
    requires costs_known { CostsKnown kept horizon costs.now × WordsBehind kept horizon words.now }
    requires first_le_until { (first ≤ until) × (until ≤ kept.terms.longest) × (kept.from + until ≤ horizon) }
    ensures { NextEnd kept (word_of words.now) first until total (unwrap_or result until) × IfSome result (λ n. n < until) }
{
    for n in first..until {
        let behind = words[(kept.from + n + 1) as usize];
        if behind != NONE {
            if costs[n as usize] + behind <= total {
                return Some(n);
            }
        }
    }
    None
}

// The choice that `best_end` makes, by what the arcs cost. Ends that are not better are passed over.
pub fn best_of(words: &[u64], costs: &[u64], kept: Kept, horizon: u64, best: Best) -> Best
    requires { CostsKnown kept horizon costs.now × WordsBehind kept horizon words.now }
    ensures { result ≡ best_to kept horizon (word_of words.now) best }
{
    let years = kept.terms.longest.min(horizon - kept.from);
    let mut first = kept.terms.shortest.saturating_sub(1).min(years);
    let mut chosen = best;
    while let Some(n) = next_end(words, costs, kept, horizon, first, years, chosen.total) {
        let end = kept.from + n + 1;
        chosen = Best {
            total: costs[n as usize] + words[end as usize],
            end,
        };
        first = n + 1;
    }
    chosen
}
