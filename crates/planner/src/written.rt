// The plan of the chosen chain.

ghost use Rattle.std.specs.Prelude.{◌≡◌, length};
ghost use Rattle.base.specs.Outcome.{answer_of};
ghost use Rattle.sheet.specs.Sheet.{PlanningSheet};
ghost use Rattle.sheet.specs.Parsed.{parsed};
ghost use Rattle.checking.specs.Fit.{SheetFits};
ghost use Rattle.front.specs.Front.{TailsLent, FirstsHeld};
ghost use Rattle.planning.specs.Planning.{planning, plan_written};

use base::Refusal;
use division::Divisor;
use front::Front;
use sheet::Sheet;

// Finds the chosen chain by the words and the first ends, and writes its plan where there is one and the buffer is long enough for it.
pub fn write_chosen(
    sheet: Sheet,
    plan: &mut [u8],
    words: &[u64],
    firsts: &[u64],
) -> Result<u64, Refusal>
    requires { SheetFits sheet × TailsLent sheet words.now × FirstsHeld sheet firsts.now }
    ensures answer { (p : PlanningSheet) → sheet ≡ parsed p → answer_of result ≡ planning p (length plan.old) }
    ensures plan { (p : PlanningSheet) → sheet ≡ parsed p → plan.new ≡ plan_written p plan.old }
{
    let discount = Divisor::of(sheet.discount);
    let chosen = front::best_front(words, sheet, discount);
    let Some(Front { total, i, j }) = chosen else {
        return Err(Refusal::NoChain);
    };
    let mut ends = [0u64; 300];
    let count = front::ends_from(&mut ends, firsts, sheet, j);
    if plan.len() < 19 + 2 * count {
        return Err(Refusal::PlanLength);
    }
    chain::writing::write_plan(plan, total, i, j, &ends[..count]);
    Ok(total)
}
