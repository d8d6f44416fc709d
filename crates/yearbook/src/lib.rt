// The yearbook of present-worth factors: document 02, request 5. The usual public rates are looked up in a table, every other rate is stepped.
// The public call is `factor`.

#![tactic(auto)]

ghost use Rattle.std.specs.Prelude.{◌≡◌, ◌<◌, ◌≤◌};
ghost use Rattle.base.specs.Outcome.{answer_of};
ghost use Rattle.factors.specs.PresentWorth.{largest_rate, present_worth};
ghost use Rattle.yearbook.specs.Yearbook.{last_year, usual_rates, usual_rate, factor_answer};
ghost use Rattle.yearbook.specs.Promises.{PromisedFactor};

use base::Refusal;
use table::FACTORS;

mod table;

// The largest real discount rate, 20 per cent a year, and the last year of the table.
const LARGEST_RATE: u64 = 200_000;

const LAST_YEAR: u64 = 300;

// What is looked up is what is stepped, at every row of every rate.
fn looked_up(place: usize, year: usize) -> u64
    requires { (place < usual_rates) × (year ≤ last_year) }
    ensures { result ≡ present_worth (usual_rate place) year }
{
    FACTORS[place * 301 + year]
}

// The factor for a rate and a year, looked up where the table has the rate: 2, 3, 4 and 5 per cent.
fn worth(rate: u64, year: u64) -> u64
    requires { (rate ≤ largest_rate) × (year ≤ last_year) }
    ensures { result ≡ present_worth rate year }
{
    let percent = rate / 10_000;
    if (percent * 10_000 == rate) & (2 <= percent) & (percent <= 5) {
        return looked_up((percent - 2) as usize, year as usize);
    }
    factors::stepped(rate, year)
}

// The library's own present-worth factor for a rate in millionths a year and a year.
pub fn factor(rate: u64, year: u64) -> Result<u64, Refusal>
    ensures answer { answer_of result ≡ factor_answer rate year }
    ensures promised { PromisedFactor rate year (answer_of result) }
{
    if LARGEST_RATE < rate {
        return Err(Refusal::Rate);
    }
    if LAST_YEAR < year {
        return Err(Refusal::NotOffered);
    }
    Ok(worth(rate, year))
}
