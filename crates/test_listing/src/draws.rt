// Two generators of pseudo-random numbers: one gives each sheet its seed, the other the numbers that a part of a sheet is made of.

const PRIME: u64 = 2_147_483_647;

pub fn next_sheet(seed: u64) -> u64 {
    seed % PRIME * 16_807 % PRIME
}

pub fn draws(seed: u64) -> [u64; 32] {
    let mut drawn = [0; 32];
    let mut x = seed;
    for draw in &mut drawn {
        x = x % PRIME * 48_271 % PRIME;
        *draw = x;
    }
    drawn
}
