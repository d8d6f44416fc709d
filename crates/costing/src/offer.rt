// Which arcs a sheet offers: row 13 of document 01's refusal table. An option is a number here, as a caller of `cost` gives it, known or not.

ghost use Rattle.std.specs.Prelude.{◌≡◌, ◌&&◌, ◌-◌};
ghost use Rattle.sheet.specs.Sheet.{PlanningSheet};
ghost use Rattle.sheet.specs.Parsed.{parsed};
ghost use Rattle.costing.specs.Offered.{placed, length_offered, offered};

use base::Activity;
use sheet::Sheet;

// Whether an option is known, the end is not above T nor before the start, and maintain starts in year 0.
fn placed(horizon: u64, option: u64, start: u64, end: u64) -> bool
    ensures { result ≡ placed horizon option start end }
{
    (option <= 2) & (end <= horizon) & (start <= end) & ((1 <= option) | (start == 0))
}

// Whether a length lies between the shortest and the longest life, or is 0 for maintain or renovate.
fn length_offered(shortest: u64, longest: u64, option: u64, n: u64) -> bool
    ensures { result ≡ length_offered shortest longest option n }
{
    ((1 <= n) & (shortest <= n) & (n <= longest)) | ((n == 0) & (option <= 1))
}

// Whether the arc of an option with these lives is offered.
pub fn offered_by(
    horizon: u64,
    shortest: u64,
    longest: u64,
    option: u64,
    start: u64,
    end: u64,
) -> bool
    ensures { result ≡ placed horizon option start end && length_offered shortest longest option (end - start) }
{
    if !placed(horizon, option, start, end) {
        return false;
    }
    length_offered(shortest, longest, option, end - start)
}

// Whether a parsed sheet offers the arc: for the crates above, which parse a sheet once for many arcs. An option that is not known has no
// terms, and those of replace are read in their place.
pub fn offered(sheet: Sheet, option: u64, start: u64, end: u64) -> bool
    ensures { (p : PlanningSheet) → sheet ≡ parsed p → result ≡ offered p option start end }
{
    let known = option.min(Activity::Replace as u64);
    let terms = sheet.options[known as usize];
    offered_by(
        sheet.horizon,
        terms.shortest,
        terms.longest,
        option,
        start,
        end,
    )
}
