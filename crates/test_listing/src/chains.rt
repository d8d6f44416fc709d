// Document 01, 'Feasible chains': a chain, whether it is feasible and its total.

use crate::arcs::{arc, renewal};
use crate::figures::{Figures, Terms};

// Maintain up to i, renovate up to j, then replacements up to each of the ends. Ends at or past the count are 0. Of two chains of one total the
// greater is taken: the one of the larger i, then of the larger j, then of the later end where the ends first differ.
#[derive(Clone, Copy, PartialEq, Eq, PartialOrd, Ord)]
pub struct Chain {
    pub i: u64,
    pub j: u64,
    pub ends: [u64; 8],
    pub count: usize,
}

impl Chain {
    // One replacement more, which ends in that year. There are at most eight years to end in.
    fn with_end(self, year: u64) -> Chain {
        let mut longer = self;
        if let Some(end) = longer.ends.get_mut(self.count) {
            *end = year;
            longer.count = self.count + 1;
        }
        longer
    }

    // The chain in which a replacement ends in year j + 1 + k where digit k of a number in base two is 1.
    pub fn of(i: u64, j: u64, digits: u64) -> Chain {
        let mut chain = Chain {
            i,
            j,
            ends: [0; 8],
            count: 0,
        };
        for k in 0..8 {
            if (digits >> k) % 2 == 1 {
                chain = chain.with_end(j.wrapping_add(k + 1));
            }
        }
        chain
    }
}

// Whether an option may be kept for that many years. Where it is not offered both lives are 0.
fn lasts(o: Terms, years: u64) -> bool {
    o.shortest <= years && years <= o.longest
}

// The total of the replacements alone, from j to T.
pub fn replaced(f: Figures, chain: Chain) -> Option<u64> {
    let mut start = chain.j;
    let mut total = 0u64;
    for &end in chain.ends.iter().take(chain.count) {
        let years = end.wrapping_sub(start);
        if !lasts(f.replace, years) {
            return None;
        }
        let paid = renewal(f.replace, f.rate, start, start, years, f.horizon);
        total = total.wrapping_add(paid);
        start = end;
    }
    if start == f.horizon {
        Some(total)
    } else {
        None
    }
}

// The total of the whole chain, from 0 to T.
pub fn priced(f: Figures, chain: Chain) -> Option<u64> {
    let renovated = chain.j.wrapping_sub(chain.i);
    if chain.i != 0 && !lasts(f.maintain, chain.i) {
        return None;
    }
    if renovated != 0 && !lasts(f.renovate, renovated) {
        return None;
    }
    let rest = replaced(f, chain)?;
    let maintain = arc(f.maintain, f.rate, 0, 0, chain.i);
    let renovate = renewal(f.renovate, f.rate, 0, chain.i, renovated, f.horizon);
    Some(maintain.wrapping_add(renovate).wrapping_add(rest))
}
