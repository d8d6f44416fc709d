// The bytes of a sheet: document 01, 'The planning sheet', and document 02, request 6.

ghost use Rattle.std.specs.Prelude.{◌≤◌};

use crate::bytes::Bytes;
use crate::figures::{Figures, Overhauls, Removal, Terms, Yearly};

impl Bytes {
    // An inflation or an ageing, from 1,000,000 more: the low four bytes of the difference, also of a negative one.
    fn with_rate(self, factor: u64) -> Bytes {
        self.with32(factor.wrapping_sub(1_000_000))
    }

    fn with_yearly(self, y: Yearly) -> Bytes {
        self.with32(y.amount)
            .with_rate(y.growth)
            .with_rate(y.ageing)
    }

    fn with_overhauls(self, o: Overhauls) -> Bytes {
        let mut b = self.with_rate(o.growth).with8(o.count as u64);
        for entry in &o.entries {
            b = b.with16(entry.age).with32(entry.amount);
        }
        b
    }

    fn with_removal(self, removal: Option<Removal>) -> Bytes {
        match removal {
            Some(r) => self.with32(r.amount).with_rate(r.growth),
            None => self,
        }
    }

    fn with_terms(self, o: Terms) -> Bytes {
        let lives = self.with16(o.shortest).with16(o.longest);
        let invested = lives.with32(o.investment).with_rate(o.growth);
        invested
            .with_yearly(o.maintenance)
            .with_yearly(o.electricity)
            .with_overhauls(o.overhauls)
            .with_removal(o.removal)
    }
}

pub fn sheet_length(version: u64) -> usize
    ensures { result ≤ 302 }
{
    if version == 1 { 278 } else { 302 }
}

// The sheet is the first bytes, as many as its version has.
pub fn sheet(f: Figures) -> [u8; 302] {
    let mark = Bytes::new(0).with(b"RCS");
    let header = mark.with16(f.version).with16(f.horizon).with32(f.rate);
    let whole = header
        .with_terms(f.maintain)
        .with_terms(f.renovate)
        .with_terms(f.replace);
    whole.bytes
}
