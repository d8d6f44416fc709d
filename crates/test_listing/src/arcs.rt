// Document 01, 'What an arc costs', with document 02's requests 4 and 6: an option kept from year `start` for `years` years, whose motors are in
// service since year `since`. Every payment is stepped from year 0 by itself.

use crate::figures::{Overhauls, Removal, Terms, Yearly};
use crate::stepping::{in_service, plain, units};

fn yearly(y: Yearly, rate: u64, since: u64, start: u64, years: u64) -> u64 {
    let mut sum = 0u64;
    for k in 0..years {
        let then = plain(units(y.amount), y.growth, rate, since);
        let served = start.wrapping_add(k + 1).wrapping_sub(since);
        sum = sum.wrapping_add(in_service(then, y, rate, served));
    }
    sum
}

// The overhauls of age less than the length.
fn overhauls(o: Overhauls, rate: u64, start: u64, years: u64) -> u64 {
    let mut sum = 0u64;
    for entry in o.entries.iter().take(o.count) {
        if entry.age < years {
            let year = start.wrapping_add(entry.age);
            sum = sum.wrapping_add(plain(units(entry.amount), o.growth, rate, year));
        }
    }
    sum
}

// All but the removal, which maintaining does not pay.
pub fn arc(o: Terms, rate: u64, since: u64, start: u64, years: u64) -> u64 {
    if years == 0 {
        return 0;
    }
    let invested = plain(units(o.investment), o.growth, rate, start);
    let overhauled = overhauls(o.overhauls, rate, start, years);
    let maintained = yearly(o.maintenance, rate, start, start, years);
    let powered = yearly(o.electricity, rate, since, start, years);
    let yearly = maintained.wrapping_add(powered);
    invested.wrapping_add(overhauled).wrapping_add(yearly)
}

// Paid in the end year, if that is before T.
fn removed(removal: Option<Removal>, rate: u64, end: u64, horizon: u64) -> u64 {
    match removal {
        Some(r) if end < horizon => plain(units(r.amount), r.growth, rate, end),
        _ => 0,
    }
}

// A renovation or a replacement.
pub fn renewal(o: Terms, rate: u64, since: u64, start: u64, years: u64, horizon: u64) -> u64 {
    if years == 0 {
        return 0;
    }
    let kept = arc(o, rate, since, start, years);
    kept.wrapping_add(removed(o.removal, rate, start.wrapping_add(years), horizon))
}
