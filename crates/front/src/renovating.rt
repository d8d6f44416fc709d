// Renovating from each year in which maintaining may end.

ghost use Rattle.std.specs.Prelude.{◌≤◌, length};
ghost use Rattle.sheet.specs.Layout.{year_places};
ghost use Rattle.sheet.specs.Sheet.{renovate};
ghost use Rattle.checking.specs.Fit.{SheetFits};
ghost use Rattle.steps.specs.Fit.{Divides};
ghost use Rattle.streams.specs.Streams.{StreamsOf};
ghost use Rattle.weighing.specs.Ends.{WordsFit};
ghost use Rattle.tails.specs.Writing.{OptionLent};
ghost use Rattle.front.specs.Front.{TailsLent, AheadLent, NoTotals, TotalsHeld, EndsHeld};

use crate::keeping;
use base::Activity;
use division::Divisor;
use sheet::{Sheet, YEARS};
use streams::lending;
use tails::Lent;
use weighing::ahead;

// Writes the totals behind the ends of renovating: at the horizon nothing is added.
fn look_ahead(ahead: &mut [u64], words: &[u64], lent: &Lent)
    requires sheet_fits { SheetFits lent.now.sheet × (year_places ≤ length ahead.old) }
    requires streams_of { StreamsOf lent.now.sheet renovate lent.now.streams.now × TailsLent lent.now.sheet words.now }
    ensures { AheadLent lent.now.sheet ahead.new }
{
    let horizon = lent.sheet.horizon;
    ahead[horizon as usize] = 0;
    for year in (0..horizon).rev() {
        ahead::look_ahead(ahead, words, lent.streams, year);
    }
}

// Writes, for year 0 and each later year in which maintaining may end, the least total from there and the end of renovating.
fn fill(totals: &mut [u64], ends: &mut [u64], words: &[u64], ahead: &[u64], lent: &Lent)
    requires renovate_lent { OptionLent renovate lent.now }
    requires behind { TailsLent lent.now.sheet words.now × AheadLent lent.now.sheet ahead.now }
    requires no_totals { NoTotals totals.old × (year_places ≤ length totals.old) × (year_places ≤ length ends.old) }
    ensures { TotalsHeld lent.now.sheet totals.new × WordsFit lent.now.sheet.horizon 0 totals.new × EndsHeld lent.now.sheet ends.new }
{
    let horizon = lent.sheet.horizon;
    let maintain = lent.sheet.options[Activity::Maintain as usize];
    let shortest = maintain.shortest;
    let top = maintain.longest.min(horizon);
    for i in 0..=top {
        if 0 < i && i < shortest {
            continue;
        }
        let kept = costing::kept_of(&lent.sheet, Activity::Renovate, i);
        let behind = words[i as usize];
        let best = keeping::best_from(behind, ahead, lent, kept);
        totals[i as usize] = best.total;
        ends[i as usize] = best.end;
    }
}

// The same, by streams of its own.
pub fn renovations(
    totals: &mut [u64],
    ends: &mut [u64],
    words: &[u64],
    sheet: Sheet,
    discount: Divisor,
)
    requires sheet_fits { SheetFits sheet × Divides discount sheet.discount }
    requires tails_lent { TailsLent sheet words.now }
    requires no_totals { NoTotals totals.old × (year_places ≤ length totals.old) × (year_places ≤ length ends.old) }
    ensures { TotalsHeld sheet totals.new × WordsFit sheet.horizon 0 totals.new × EndsHeld sheet ends.new }
{
    let mut streams = [0u64; streams::PLACES];
    let ages = lending::lend(&mut streams, sheet, discount, Activity::Renovate);
    let lent = Lent {
        sheet,
        discount,
        streams: &streams,
        ages: &ages,
    };
    let mut ahead = [0u64; YEARS];
    look_ahead(&mut ahead, words, &lent);
    fill(totals, ends, words, &ahead, &lent);
}
