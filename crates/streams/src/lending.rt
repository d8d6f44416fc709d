// What is lent with a sheet for one of its options.

ghost use Rattle.std.specs.Prelude.{◌≤◌, length};
ghost use Rattle.base.specs.Outcome.{place};
ghost use Rattle.checking.specs.Fit.{Fit};
ghost use Rattle.steps.specs.Fit.{Divides};
ghost use Rattle.streams.specs.Streams.{stream_places, Lent};

use base::Activity;
use division::Divisor;
use sheet::Sheet;

// Writes the streams of an activity for the years up to the horizon, and hands back the ages of its overhauls.
pub fn lend(streams: &mut [u64], sheet: Sheet, discount: Divisor, activity: Activity) -> [u64; 8]
    requires fit { Fit sheet × Divides discount sheet.discount }
    requires in_bounds { stream_places ≤ length streams.old }
    ensures { Lent sheet (place activity) streams.new result }
{
    let terms = sheet.options[activity.place()];
    crate::fill(streams, terms, u64::from(activity), discount, sheet.horizon);
    terms.overhauls.ages
}
