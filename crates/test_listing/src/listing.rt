// All chains of a sheet, one after the other: i, j, and every set of years from j + 1 to T as the end years.

use crate::chains::{Chain, priced, replaced};
use crate::figures::Figures;

// The chain taken, its total, and how many chains have that total.
#[derive(Clone, Copy)]
pub struct Least {
    pub chain: Chain,
    pub total: u64,
    pub sharing: u64,
}

impl Least {
    // The same after another chain.
    fn with(self, chain: Chain, total: u64) -> Least {
        let mut next = self;
        if total < self.total {
            return Least::first(chain, total);
        }
        if total == self.total {
            next.sharing = self.sharing.wrapping_add(1);
            next.chain = chain.max(self.chain);
        }
        next
    }

    fn first(chain: Chain, total: u64) -> Least {
        Least {
            chain,
            total,
            sharing: 1,
        }
    }
}

// The feasible chains so far: how many, and the least.
#[derive(Clone, Copy)]
pub struct Listed {
    pub count: u64,
    pub least: Option<Least>,
}

impl Listed {
    const NONE: Listed = Listed {
        count: 0,
        least: None,
    };

    // The same after another chain, with its total if it is feasible.
    fn with(self, chain: Chain, total: Option<u64>) -> Listed {
        let Some(total) = total else {
            return self;
        };
        let least = match self.least {
            Some(least) => least.with(chain, total),
            None => Least::first(chain, total),
        };
        Listed {
            count: self.count.wrapping_add(1),
            least: Some(least),
        }
    }
}

// How many sets of years there are from a year on to T, of which each is a number in base two. T is at most 8.
fn sets(f: Figures, year: u64) -> u64 {
    1 << f.horizon.wrapping_sub(year).min(8)
}

// The chains of one i and one j, each with what is its total.
fn over_ends<F: Fn(Figures, Chain) -> Option<u64>>(
    f: Figures,
    before: Listed,
    i: u64,
    j: u64,
    total: F,
) -> Listed
    requires { F.IsAlwaysCallable total }
{
    let mut listed = before;
    for digits in 0..sets(f, j) {
        let chain = Chain::of(i, j, digits);
        listed = listed.with(chain, total(f, chain));
    }
    listed
}

fn over_j(f: Figures, before: Listed, i: u64) -> Listed {
    let mut listed = before;
    for j in i..=f.horizon {
        listed = over_ends(f, listed, i, j, priced);
    }
    listed
}

// The chains from 0 to T.
pub fn chains(f: Figures) -> Listed {
    let mut listed = Listed::NONE;
    for i in 0..=f.horizon {
        listed = over_j(f, listed, i);
    }
    listed
}

// The lists of replacements alone, from a year to T.
pub fn replacements(f: Figures, year: u64) -> Listed {
    over_ends(f, Listed::NONE, 0, year, replaced)
}
