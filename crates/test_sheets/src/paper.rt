// The paper's case study, Table 1 as a sheet: T 300, r 40,000, and the inflations of every option the same.

ghost use Rattle.std.specs.Prelude.{◌+◌, ◌*◌, ◌^◌, ◌<◌, ◌≤◌};

use crate::{MAINTAIN_AT, RENOVATE_AT, REPLACE_AT, ShortSheet, plain};

// What differs from option to option; electricity does not age.
#[derive(Clone, Copy)]
struct Figures {
    longest: u64,
    investment: u64,
    maintenance: u64,
    ageing: u64,
    electricity: u64,
}

const MAINTAIN: Figures = Figures {
    longest: 15,
    investment: 150_000,
    maintenance: 70_000,
    ageing: 15_000,
    electricity: 15_000,
};

const RENOVATE: Figures = Figures {
    longest: 30,
    investment: 1_125_000,
    maintenance: 35_000,
    ageing: 10_000,
    electricity: 15_000,
};

const REPLACE: Figures = Figures {
    longest: 60,
    investment: 2_500_000,
    maintenance: 10_000,
    ageing: 5_000,
    electricity: 10_000,
};

impl ShortSheet {
    // The inflations of the record at a place: investment and overhauls 1.03 %, maintenance 0.85 %, electricity 0.20 %.
    fn inflations(self, at: usize) -> ShortSheet
        requires { at ≤ 189 }
    {
        self.put32(at + 8, 10_300)
            .put32(at + 16, 8_500)
            .put32(at + 28, 2_000)
            .put32(at + 36, 10_300)
    }

    fn figures(self, at: usize, f: Figures) -> ShortSheet
        requires { at ≤ 189 }
    {
        self.lives(at, 1, f.longest)
            .put32(at + 4, f.investment)
            .put32(at + 12, f.maintenance)
            .put32(at + 20, f.ageing)
            .put32(at + 24, f.electricity)
    }

    // The j-th overhaul, of 150,000, and the count with it.
    fn overhaul(self, at: usize, j: u64, age: u64) -> ShortSheet
        requires { (at ≤ 189) × (j ≤ 7) }
    {
        let entry = at + 41 + 6 * j as usize;
        self.put8(at + 40, j + 1)
            .put16(entry, age)
            .put32(entry + 2, 150_000)
    }

    // The record at a place, with its overhauls at ages that lie evenly apart.
    fn record(self, at: usize, f: Figures, overhauls: u64, apart: u64) -> ShortSheet
        requires { (at ≤ 189) × (overhauls ≤ 8) × (overhauls * apart < 2 ^ 16) }
    {
        let mut sheet = self.inflations(at).figures(at, f);
        for j in 0..overhauls {
            sheet = sheet.overhaul(at, j, (j + 1) * apart);
        }
        sheet
    }
}

pub fn sheet() -> ShortSheet {
    plain()
        .record(MAINTAIN_AT, MAINTAIN, 2, 5)
        .record(RENOVATE_AT, RENOVATE, 2, 10)
        .record(REPLACE_AT, REPLACE, 3, 15)
}
