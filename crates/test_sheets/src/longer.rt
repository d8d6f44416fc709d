// Sheets of version 2, of 302 bytes: a sheet of version 1 with a removal behind each of its records.

ghost use Rattle.std.specs.Prelude.{◌+◌, ◌≤◌};

use crate::{Bytes, ShortSheet};

// Where the record of each option starts.
pub const MAINTAIN_AT: usize = 11;

pub const RENOVATE_AT: usize = 108;

pub const REPLACE_AT: usize = 205;

pub type LongSheet = Bytes<302>;

// A removal amount and its inflation, whose four bytes are those of an i32.
#[derive(Clone, Copy)]
pub struct Removal {
    pub amount: u64,
    pub inflation: u64,
}

impl Removal {
    pub const NONE: Removal = Removal {
        amount: 0,
        inflation: 0,
    };

    pub fn of(amount: u64, inflation: u64) -> Removal {
        Removal { amount, inflation }
    }

    // The same of an inflation as it is written, below 0 too.
    pub fn at(amount: u64, inflation: i32) -> Removal {
        let field = u32::from_le_bytes(inflation.to_le_bytes());
        Removal::of(amount, u64::from(field))
    }
}

impl LongSheet {
    // The removal in the record at a place.
    fn with_removal(self, at: usize, r: Removal) -> Self
        requires { at ≤ 205 }
    {
        self.put32(at + 89, r.amount).put32(at + 93, r.inflation)
    }
}

// Every removal 0.
fn lengthened(shorter: &[u8; 278]) -> LongSheet {
    Bytes([0; 302])
        .put(0, &shorter[..crate::RENOVATE_AT])
        .put(RENOVATE_AT, &shorter[crate::RENOVATE_AT..crate::REPLACE_AT])
        .put(REPLACE_AT, &shorter[crate::REPLACE_AT..])
        .put16(3, 2)
}

// The removals of maintain, renovate and replace.
pub fn sheet(shorter: ShortSheet, first: Removal, second: Removal, third: Removal) -> LongSheet {
    lengthened(&shorter.0)
        .with_removal(MAINTAIN_AT, first)
        .with_removal(RENOVATE_AT, second)
        .with_removal(REPLACE_AT, third)
}
