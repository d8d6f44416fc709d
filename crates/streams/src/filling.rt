// Filling streams. They are filled upward, so that it is enough to know that the places before one are left.

ghost use Rattle.std.specs.Prelude.{ℕ, ◌+◌, ◌*◌, ◌<◌, ◌≤◌, length};
ghost use Rattle.checking.specs.Fit.{OverhaulsFit};
ghost use Rattle.steps.specs.Fit.{PlainFits};
ghost use Rattle.steps.specs.declared.Units.{Units};
ghost use Rattle.costing.specs.Arc.{since_of};
ghost use Rattle.costing.specs.Fit.{FlowSteps};
ghost use Rattle.streams.specs.Streams.{once_in, start_in, Reached, Stepped, Filled, part, stream_places, OverhaulsFilled};

use division::Divisor;
use sheet::{Flow, Overhauls, YEARS};
use steps::Units;

// Writes a value and what a step makes of it from year to year, in the years 0 to last, from a place on.
fn stepped<F: Fn(Units) -> Units>(streams: &mut [u64], at: usize, first: Units, last: u64, step: F)
    requires steps { (y : ℕ) (v : Units) → y ≤ last → Reached (F.post step) first y v → F.pre step v }
    requires last_bound { (last ≤ 300) × (at + last < length streams.old) }
    ensures { Stepped (F.post step) first at last streams.old streams.new }
{
    let mut value = first;
    for year in 0..last + 1 {
        streams[at + year as usize] = value.0;
        value = step(value);
    }
}

// Writes the value of an amount in the years 0 to last, from a place on: each year is a plain step from the one before.
pub fn stream(streams: &mut [u64], at: usize, amount: u64, grow: u64, discount: Divisor, last: u64)
    requires plain_fits { PlainFits grow discount.by (amount * 10_000) }
    requires last_bound { (last ≤ 300) × (at + last < length streams.old) }
    ensures { Filled at (once_in discount.by amount grow) last streams.old streams.new }
{
    stepped(
        streams,
        at,
        Units(amount * 10_000),
        last,
        |value| value.plain(grow, discount),
    );
}

// Writes the stream of electricity: in service since year 0 where the option keeps its motors, else new in each year.
pub fn electricity(streams: &mut [u64], option: u64, flow: Flow, discount: Divisor, last: u64)
    requires flow_steps { FlowSteps discount flow }
    requires last_bound { (last ≤ 300) × (stream_places ≤ length streams.old) }
    ensures { Filled (part 2) (start_in discount.by flow (since_of option)) last streams.old streams.new }
{
    if costing::keeps_motors(option) {
        stepped(
            streams,
            2 * YEARS,
            Units(flow.amount * 10_000),
            last,
            |value| value.in_service(flow.grow, flow.age, discount),
        );
        return;
    }
    stream(streams, 2 * YEARS, flow.amount, flow.grow, discount, last);
}

// Writes the streams of the overhauls.
pub fn overhauls(streams: &mut [u64], overhauls: Overhauls, discount: Divisor, last: u64)
    requires discount_low { 1_000_000 ≤ discount.by }
    requires overhauls_fit { OverhaulsFit discount.by overhauls }
    requires last_bound { (last ≤ 300) × (stream_places ≤ length streams.old) }
    ensures { OverhaulsFilled discount.by overhauls last streams.old streams.new }
{
    let amounts = overhauls.amounts;
    let count = overhauls.count as usize;
    for j in 0..count {
        stream(
            streams,
            (3 + j) * YEARS,
            amounts[j],
            overhauls.grow,
            discount,
            last,
        );
    }
}
