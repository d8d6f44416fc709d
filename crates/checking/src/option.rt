// Refusals 5 to 9: the terms of one option, on the structs that the sheet is parsed into.
// A contract says what a rule of document 01 gives for every record of which the terms are the parsed form.

ghost use Rattle.std.specs.Prelude.{◌≡◌, ℕ, ◌+◌, ◌≤◌, ℤ};
ghost use Rattle.base.specs.Answer.{answered};
ghost use Rattle.base.specs.Outcome.{place, check_answer};
ghost use Rattle.sheet.specs.Sheet.{Expense, OptionRecord, factor};
ghost use Rattle.sheet.specs.Parsed.{flow_of, terms_of};
ghost use Rattle.checking.specs.Refusals.{lives_ok, amounts_ok, inflation_ok, inflations_ok, ageing_ok, ageings_ok, entry_ok, fields_number};

use base::{Activity, Refusal};
use sheet::{Flow, Terms};

// 5: both lives 0, or in order and at most 120
fn lives_ok(t: Terms) -> bool
    ensures { result ≡ lives_ok t.shortest t.longest }
{
    ((t.shortest == 0) & (t.longest == 0))
        | ((1 <= t.shortest) & (t.shortest <= t.longest) & (t.longest <= 120))
}

// 6: investment, maintenance, electricity and removal at most 10^9
fn amounts_ok(t: Terms) -> bool
    ensures { result ≡ amounts_ok t.investment.amount t.maintenance.amount t.electricity.amount t.removal.amount }
{
    (t.investment.amount <= 1_000_000_000)
        & (t.maintenance.amount <= 1_000_000_000)
        & (t.electricity.amount <= 1_000_000_000)
        & (t.removal.amount <= 1_000_000_000)
}

// 7: f is from −100,000 to r, tested on their factors
fn inflation_ok(discount: u64, grow: u64) -> bool
    ensures { (r : ℕ) (f : ℤ) → discount ≡ 1_000_000 + r → grow ≡ factor f → result ≡ inflation_ok r f }
{
    (900_000 <= grow) & (grow <= discount)
}

// 7, of all five
fn inflations_ok(discount: u64, t: Terms) -> bool
    ensures { (r : ℕ) (o : OptionRecord) → discount ≡ 1_000_000 + r → t ≡ terms_of o → result ≡ inflations_ok r o }
{
    let investment = inflation_ok(discount, t.investment.grow);
    let maintenance = inflation_ok(discount, t.maintenance.grow);
    let electricity = inflation_ok(discount, t.electricity.grow);
    let overhauls = inflation_ok(discount, t.overhauls.grow);
    let removal = inflation_ok(discount, t.removal.grow);
    investment & maintenance & electricity & overhauls & removal
}

// 8: an ageing at most 300,000, and the product within the discount. A factor above the discount's fails for every ageing; it is tested
// first, so that the product fits.
fn ageing_ok(discount: u64, w: Flow) -> bool
    requires { discount ≤ 1_200_000 }
    ensures { (r : ℕ) (e : Expense) → discount ≡ 1_000_000 + r → w ≡ flow_of e → result ≡ ageing_ok r e }
{
    if 1_300_000 < w.age {
        return false;
    }
    if discount < w.grow {
        return false;
    }
    w.grow * w.age <= 1_000_000 * discount
}

// 8, of maintenance and electricity
fn ageings_ok(discount: u64, t: Terms) -> bool
    requires { discount ≤ 1_200_000 }
    ensures { (r : ℕ) (o : OptionRecord) → discount ≡ 1_000_000 + r → t ≡ terms_of o → result ≡ ageings_ok r o }
{
    let maintenance = t.maintenance;
    let electricity = t.electricity;
    ageing_ok(discount, maintenance) & ageing_ok(discount, electricity)
}

// 9: an entry below the count has an age of at most 119 above the one before, so at least 1, and an amount of at most 10^9; another is zero
pub fn entry_ok(count: u64, j: u64, before: u64, age: u64, amount: u64) -> bool
    ensures { result ≡ entry_ok count j before age amount }
{
    if j < count {
        return (before < age) & (age <= 119) & (amount <= 1_000_000_000);
    }
    (age == 0) & (amount == 0)
}

// Refused as the first of 5 to 9, the overhauls' entries left out.
pub fn fields(discount: u64, t: Terms, activity: Activity) -> Result<(), Refusal>
    requires { discount ≤ 1_200_000 }
    ensures { (r : ℕ) (o : OptionRecord) → discount ≡ 1_000_000 + r → t ≡ terms_of o → check_answer result ≡ answered (fields_number r o) (place activity) }
{
    if !lives_ok(t) {
        return Err(Refusal::Lives(activity));
    }
    if !amounts_ok(t) {
        return Err(Refusal::Amount(activity));
    }
    if !inflations_ok(discount, t) {
        return Err(Refusal::Inflation(activity));
    }
    if !ageings_ok(discount, t) {
        return Err(Refusal::Ageing(activity));
    }
    if t.overhauls.count > 8 {
        return Err(Refusal::Overhauls(activity));
    }
    Ok(())
}
