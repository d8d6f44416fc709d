// What the arcs of an option cost, by their lengths.

ghost use Rattle.std.specs.Prelude.{◌+◌, ◌≤◌, length};
ghost use Rattle.costing.specs.Arc.{kept_from};
ghost use Rattle.streams.specs.Streams.{PowerAt};
ghost use Rattle.weighing.specs.Ends.{Walks, Costs};

use costing::Kept;
use division::Divisor;

// Writes what the arcs from two years cost, side by side: a step of the one does not wait for a step of the other. Each arc is extended by
// a year from the last.
pub fn two_starts(
    earlier: &mut [u64],
    later: &mut [u64],
    streams: &[u64],
    ages: &[u64; 8],
    kept: Kept,
    start: u64,
    discount: Divisor,
    last: u64,
    years: u64,
)
    requires walks { Walks kept discount last streams.now ages.now × PowerAt (kept_from kept start) streams.now }
    requires last_bound { (last ≤ 300) × (years ≤ 120) }
    requires from_le_start { (kept.from ≤ start) × (start ≤ last) × (start + years ≤ last + 1) }
    requires in_bounds { (120 ≤ length earlier.old) × (120 ≤ length later.old) }
    ensures earlier { Costs kept years earlier.new }
    ensures later { Costs (kept_from kept start) years later.new }
{
    let other = kept.starting(start);
    let mut walk = streams::open(streams, kept, streams::power(streams, kept), last);
    let mut beside = streams::open(streams, other, streams::power(streams, other), last);
    let mut next: usize = 0;
    for n in 0..years {
        let due = streams::due(streams, ages, kept, last, next, n);
        let also = streams::due(streams, ages, other, last, next, n);
        walk = walk.year(kept, discount, due.units);
        beside = beside.year(other, discount, also.units);
        next = due.next;
        earlier[n as usize] = walk.cost.0;
        later[n as usize] = beside.cost.0;
    }
}
