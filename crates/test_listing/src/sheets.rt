// The sheets, made from draws.

use crate::draws::draws;
use crate::figures::{Figures, Overhaul, Overhauls, Removal, Terms, Yearly};
use crate::rates::{Manner, ageing, amount, growth, manner_of};

fn yearly(m: Manner, a: u64, b: u64, c: u64, d: u64) -> Yearly {
    let g = growth(m, b, c);
    Yearly {
        amount: amount(m, a, d),
        growth: g,
        ageing: ageing(m, g, c, a),
    }
}

// At most three entries, with ages that rise.
fn overhauls(m: Manner, drawn: [u64; 32]) -> Overhauls {
    let count = (drawn[16] % 4) as usize;
    let first = 1 + drawn[17] % 3;
    let second = first + 1 + drawn[18] % 3;
    let third = second + 1 + drawn[19] % 3;
    let drawn_entries = [
        (first, amount(m, drawn[20], drawn[21])),
        (second, amount(m, drawn[22], drawn[23])),
        (third, amount(m, drawn[24], drawn[25])),
    ];
    let mut entries = [Overhaul { age: 0, amount: 0 }; 8];
    for (entry, &(age, amount)) in entries.iter_mut().zip(drawn_entries.iter().take(count)) {
        *entry = Overhaul { age, amount };
    }
    Overhauls {
        growth: growth(m, drawn[26], drawn[27]),
        count,
        entries,
    }
}

fn removal(m: Manner, drawn: [u64; 32], version: u64) -> Option<Removal> {
    if version == 1 {
        return None;
    }
    Some(Removal {
        amount: amount(m, drawn[28], drawn[29]),
        growth: growth(m, drawn[30], drawn[7]),
    })
}

// One option in five is not offered.
fn shortest_life(kind: u64, x: u64) -> u64 {
    match kind % 5 {
        0 => 0,
        1 => 1 + x % 4,
        _ => 1 + x % 2,
    }
}

fn terms(m: Manner, drawn: [u64; 32], version: u64) -> Terms {
    let shortest = shortest_life(drawn[0], drawn[1]).min(4);
    let longest = if shortest == 0 {
        0
    } else {
        shortest + drawn[2] % 6
    };
    Terms {
        shortest,
        longest,
        investment: amount(m, drawn[3], drawn[4]),
        growth: growth(m, drawn[5], drawn[6]),
        maintenance: yearly(m, drawn[8], drawn[9], drawn[10], drawn[11]),
        electricity: yearly(m, drawn[12], drawn[13], drawn[14], drawn[15]),
        overhauls: overhauls(m, drawn),
        removal: removal(m, drawn, version),
    }
}

// T from 1 to 8, and 8 for three draws in ten; version 2 for every second draw.
pub fn figures(seed: u64) -> Figures {
    let drawn = draws(seed);
    let first = draws(drawn[31]);
    let second = draws(first[31]);
    let third = draws(second[31]);
    let m = manner_of(drawn[1], drawn[2], drawn[3]);
    let version = 1 + drawn[5] % 2;
    Figures {
        version,
        horizon: 1 + (drawn[4] % 10).min(7),
        rate: m.rate.unwrap_or(0),
        maintain: terms(m, first, version),
        renovate: terms(m, second, version),
        replace: terms(m, third, version),
    }
}
