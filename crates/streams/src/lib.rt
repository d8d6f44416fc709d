// The value of each amount of an option in every year, stepped once; and an arc that is opened from these values and takes its overhauls
// from them. Nothing here is a public call: the crates above meet what is required.

#![tactic(auto)]

ghost use Rattle.std.specs.Prelude.{◌≡◌, ◌+◌, ◌<◌, ◌≤◌, length};
ghost use Rattle.checking.specs.Fit.{TermsFit};
ghost use Rattle.steps.specs.Payment.{rounded};
ghost use Rattle.costing.specs.Arc.{since_of, electricity, worth};
ghost use Rattle.costing.specs.Fit.{KeptFits};
ghost use Rattle.costing.specs.Walk.{overhauls_at, walk_at};
ghost use Rattle.streams.specs.Streams.{Stream, start_in, part, stream_places, Streams, PowerAt, removal_on, Falls};

use costing::{Kept, Walk};
use division::Divisor;
use sheet::{Terms, YEARS};
use steps::Units;

mod filling;
pub mod lending;

// An option has twelve streams: investment, maintenance, electricity, eight overhauls and removal.
pub const PLACES: usize = 12 * YEARS;

// Where the stream of removal begins.
const REMOVALS: usize = 11 * YEARS;

// What the overhauls of a year cost, and which overhaul falls next.
#[derive(Clone, Copy)]
pub struct Fallen {
    pub units: Units,
    pub next: usize,
}

// Writes all streams of an option, for the years 0 to last. Of the option's number it only asks whether its motors are kept, which any number
// answers.
pub fn fill(streams: &mut [u64], terms: Terms, option: u64, discount: Divisor, last: u64)
    requires discount_low { 1_000_000 ≤ discount.by }
    requires terms_fit { TermsFit discount.by terms }
    requires last_bound { (last ≤ 300) × (stream_places ≤ length streams.old) }
    ensures paid { Streams discount.by terms last streams.new }
    ensures power { Stream (part 2) (start_in discount.by terms.electricity (since_of option)) last streams.new }
{
    let i = terms.investment;
    let m = terms.maintenance;
    let r = terms.removal;
    filling::stream(streams, 0, i.amount, i.grow, discount, last);
    filling::stream(streams, YEARS, m.amount, m.grow, discount, last);
    filling::electricity(streams, option, terms.electricity, discount, last);
    filling::overhauls(streams, terms.overhauls, discount, last);
    filling::stream(streams, REMOVALS, r.amount, r.grow, discount, last);
}

// The running amount of electricity at the start of an arc.
pub fn power(streams: &[u64], kept: Kept) -> Units
    requires { PowerAt kept streams.now × (kept.from ≤ 300) × (stream_places ≤ length streams.now) }
    ensures { result.0 ≡ rounded kept.discount (electricity kept 0) }
{
    Units(streams[2 * YEARS + kept.from as usize])
}

// What the removal of an option costs in a year.
pub fn removal(streams: &[u64], year: u64) -> Units
    requires { (year ≤ 300) × (stream_places ≤ length streams.now) }
    ensures { result.0 ≡ removal_on streams.now year }
{
    Units(streams[REMOVALS + year as usize])
}

// The arc before its first year, with the running amount of its electricity.
pub fn open(streams: &[u64], kept: Kept, power: Units, last: u64) -> Walk
    requires streams { Streams kept.discount kept.terms last streams.now × (kept.from ≤ last) × (last ≤ 300) }
    requires power_value { power.0 ≡ rounded kept.discount (electricity kept 0) }
    ensures { result ≡ walk_at kept 0 }
{
    let from = kept.from as usize;
    Walk {
        cost: Units(streams[from]),
        maintenance: Units(streams[YEARS + from]),
        electricity: power,
        years: 0,
    }
}

// What the overhauls of age n cost, if `next` is the first of that age or more; `ages` are the option's.
pub fn due(streams: &[u64], ages: &[u64; 8], kept: Kept, last: u64, next: usize, n: u64) -> Fallen
    requires kept_fits { KeptFits kept × (ages.now ≡ kept.terms.overhauls.ages) × Falls kept n next }
    requires streams { Streams kept.discount kept.terms last streams.now × (kept.from + n ≤ last) × (last ≤ 300) }
    ensures units { result.units.0 ≡ worth kept (overhauls_at kept n) }
    ensures next { Falls kept (n + 1) result.next }
{
    let count = kept.terms.overhauls.count as usize;
    if next < count {
        if ages[next] == n {
            let year = kept.from + n;
            let value = streams[(3 + next) * YEARS + year as usize];
            let after = next + 1;
            return Fallen {
                units: Units(value),
                next: after,
            };
        }
    }
    Fallen {
        units: Units(0),
        next,
    }
}
