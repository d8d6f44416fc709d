// The figures of a sheet: document 01, 'The planning sheet', and document 02, request 6. An inflation f is held as 1,000,000 + f, and an ageing g as
// 1,000,000 + g.

// Maintenance or electricity.
#[derive(Clone, Copy)]
pub struct Yearly {
    pub amount: u64,
    pub growth: u64,
    pub ageing: u64,
}

#[derive(Clone, Copy)]
pub struct Overhaul {
    pub age: u64,
    pub amount: u64,
}

// Entries at or past the count are 0.
#[derive(Clone, Copy)]
pub struct Overhauls {
    pub growth: u64,
    pub count: usize,
    pub entries: [Overhaul; 8],
}

#[derive(Clone, Copy)]
pub struct Removal {
    pub amount: u64,
    pub growth: u64,
}

// A sheet of version 1 has no removals.
#[derive(Clone, Copy)]
pub struct Terms {
    pub shortest: u64,
    pub longest: u64,
    pub investment: u64,
    pub growth: u64,
    pub maintenance: Yearly,
    pub electricity: Yearly,
    pub overhauls: Overhauls,
    pub removal: Option<Removal>,
}

#[derive(Clone, Copy)]
pub struct Figures {
    pub version: u64,
    pub horizon: u64,
    pub rate: u64,
    pub maintain: Terms,
    pub renovate: Terms,
    pub replace: Terms,
}
