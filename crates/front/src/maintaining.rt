// Maintaining, by the totals of renovating behind its ends.

ghost use Rattle.std.specs.Prelude.{◌≡◌};
ghost use Rattle.sheet.specs.Sheet.{PlanningSheet};
ghost use Rattle.sheet.specs.Parsed.{parsed};
ghost use Rattle.checking.specs.Fit.{SheetFits};
ghost use Rattle.steps.specs.Fit.{Divides};
ghost use Rattle.weighing.specs.Best.{in_short};
ghost use Rattle.weighing.specs.Ends.{WordsFit};
ghost use Rattle.front.specs.Planned.{planned};
ghost use Rattle.front.specs.Front.{TotalsHeld};

use crate::keeping;
use base::Activity;
use division::Divisor;
use sheet::Sheet;
use streams::lending;
use tails::Lent;
use weighing::Best;

// The choice of the end of maintaining, which starts in year 0.
pub fn best_maintain(totals: &[u64], sheet: Sheet, discount: Divisor) -> Best
    requires sheet_fits { SheetFits sheet × Divides discount sheet.discount }
    requires totals_held { TotalsHeld sheet totals.now × WordsFit sheet.horizon 0 totals.now }
    ensures { (p : PlanningSheet) → sheet ≡ parsed p → result ≡ in_short (planned p) }
{
    let mut streams = [0u64; streams::PLACES];
    let ages = lending::lend(&mut streams, sheet, discount, Activity::Maintain);
    let kept = costing::kept_of(&sheet, Activity::Maintain, 0);
    let lent = Lent {
        sheet,
        discount,
        streams: &streams,
        ages: &ages,
    };
    keeping::best_from(totals[0], totals, &lent, kept)
}
