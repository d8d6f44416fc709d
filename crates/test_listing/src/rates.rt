// Rates and amounts that pass the checks.

// What is drawn once for a sheet: the rate r, or none where r and all inflations and ageings are 0; and the number that amounts stay below.
#[derive(Clone, Copy)]
pub struct Manner {
    pub rate: Option<u64>,
    pub scale: u64,
}

fn scale(x: u64) -> u64 {
    match x % 4 {
        0 => 2,
        1 => 4,
        2 => 5_000,
        _ => 1_000_000_001,
    }
}

// On about every second sheet nothing is discounted and no amount changes, so that totals are often equal.
pub fn manner_of(a: u64, b: u64, c: u64) -> Manner {
    let flat = a % 2 == 0;
    Manner {
        rate: if flat { None } else { Some(c % 200_001) },
        scale: scale(b),
    }
}

// 1,000,000 + f, with f from −100,000 to r: 0, r or any.
pub fn growth(m: Manner, kind: u64, x: u64) -> u64 {
    let Some(drawn) = m.rate else {
        return 1_000_000;
    };
    let rate = drawn.min(200_000);
    match kind % 4 {
        0 => 1_000_000,
        1 => 1_000_000 + rate,
        _ => 900_000 + x % (100_001 + rate),
    }
}

// The largest g that passes check 8.
fn most_ageing(rate: u64, growth: u64) -> u64 {
    let room = 1_000_000 * (1_000_000 + rate.min(200_000));
    room.checked_div(growth)
        .map_or(0, |most| most.wrapping_sub(1_000_000).min(300_000))
}

// 1,000,000 + g: g is 0, the largest or any.
pub fn ageing(m: Manner, growth: u64, kind: u64, x: u64) -> u64 {
    let Some(rate) = m.rate else {
        return 1_000_000;
    };
    let most = most_ageing(rate, growth).min(300_000);
    match kind % 4 {
        0 => 1_000_000,
        1 => 1_000_000 + most,
        _ => 1_000_000 + x % (most + 1),
    }
}

pub fn amount(m: Manner, kind: u64, x: u64) -> u64 {
    if kind % 3 == 0 {
        return 0;
    }
    x.checked_rem(m.scale).unwrap_or(0)
}
