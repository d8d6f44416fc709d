// The chosen chain of a sheet, by the paper's nested choice: the words have the replacements from each year, renovating is chosen by them,
// and maintaining by renovating. Nothing here is a public call: `best_front` and `ends_from` serve the planner, which meets what they require.

#![tactic(auto)]

ghost use Rattle.std.specs.Prelude.{◌≡◌, ◌≤◌, length};
ghost use Rattle.sheet.specs.Sheet.{PlanningSheet};
ghost use Rattle.sheet.specs.Parsed.{parsed};
ghost use Rattle.checking.specs.Fit.{SheetFits};
ghost use Rattle.steps.specs.Fit.{Divides};
ghost use Rattle.front.specs.Planned.{planned};
ghost use Rattle.front.specs.Front.{front_of, TailsLent, FirstsHeld, Leads, Follows};

use division::Divisor;
use sheet::{Sheet, YEARS};

mod keeping;
mod maintaining;
mod renovating;

// How the chosen chain begins: its total, the end of maintaining and the end of renovating.
#[derive(Clone, Copy)]
pub struct Front {
    pub total: u64,
    pub i: u64,
    pub j: u64,
}

// The total of the chosen chain, and how it begins; none where there is no chain.
pub fn best_front(words: &[u64], sheet: Sheet, discount: Divisor) -> Option<Front>
    requires sheet_fits { SheetFits sheet × Divides discount sheet.discount }
    requires tails_lent { TailsLent sheet words.now }
    ensures { (p : PlanningSheet) → sheet ≡ parsed p → result ≡ front_of (planned p) }
{
    // Two lists, and none of `Best`: the choice of maintaining reads the totals as words.
    let mut totals = [weighing::NONE; YEARS];
    let mut ends = [0u64; YEARS];
    renovating::renovations(&mut totals, &mut ends, words, sheet, discount);
    let best = maintaining::best_maintain(&totals, sheet, discount);
    let total = best.total;
    let i = best.end;
    if total == weighing::NONE {
        return None;
    }
    let j = ends[i as usize];
    Some(Front { total, i, j })
}

// Writes the ends of the chosen replacements from year j on, one after the other, and answers how many there are. `firsts` has the end of
// the first replacement from each year.
pub fn ends_from(ends: &mut [u64], firsts: &[u64], sheet: Sheet, j: u64) -> usize
    requires sheet_fits { SheetFits sheet × FirstsHeld sheet firsts.now }
    requires j_le_horizon { (j ≤ sheet.horizon) × Leads sheet j × (300 ≤ length ends.old) }
    ensures { (p : PlanningSheet) → sheet ≡ parsed p → Follows p j result ends.new }
{
    let mut year = j;
    let mut count: usize = 0;
    // A `while`: a `for` over the places would need an exit in its midst, since how many ends there are is known at the horizon.
    while year < sheet.horizon {
        year = firsts[year as usize];
        ends[count] = year;
        count += 1;
    }
    count
}
