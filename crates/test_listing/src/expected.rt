// What `plan` is to write, by the listing: the bytes of the plan, and the words. What it is to leave holds 165.

use crate::bytes::Bytes;
use crate::figures::Figures;
use crate::listing::{Least, replacements};

pub const LEFT: u8 = 165;

// Where no replacements lead from a year to T: 2^64 − 1.
const NONE: u64 = u64::MAX;

// Nothing is written where no chain is feasible.
pub fn plan(least: Option<Least>) -> [u8; 302] {
    let mut written = Bytes::new(LEFT);
    if let Some(Least { chain, total, .. }) = least {
        let mark = written.with(b"RCP").with16(1).with64(total);
        let years = mark.with16(chain.i).with16(chain.j);
        written = years.with16(chain.count as u64);
        for &end in chain.ends.iter().take(chain.count) {
            written = written.with16(end);
        }
    }
    written.bytes
}

// Word y: the least total of replacements alone from y to T.
pub fn words(f: Figures) -> [u64; 302] {
    let mut words = [LEFT as u64; 302];
    for (word, y) in words.iter_mut().zip(0..=f.horizon) {
        *word = replacements(f, y).least.map_or(NONE, |least| least.total);
    }
    words
}
