// Checking a planning sheet: refusals 1 to 9 of document 01's 'Refusal table'.
// The public call is `check`.

#![tactic(auto)]

ghost use Rattle.std.specs.Prelude.{◌≡◌, ◌↔◌, IsOk};
ghost use Rattle.base.specs.Outcome.{check_answer};
ghost use Rattle.checking.specs.Refusals.{checked};
ghost use Rattle.checking.specs.Passes.{Passes};

use base::{ACTIVITIES, Refusal};

mod header;
mod option;

// Refused as a sheet's first refusal: 1 to 4, then option by option and, inside one, overhaul by overhaul, each of which is read where it is
// tested.
pub fn check(sheet: &[u8]) -> Result<(), Refusal>
    ensures answer { check_answer result ≡ checked sheet.now }
    ensures accepted { IsOk result ↔ Passes sheet.now }
{
    header::header(sheet)?;
    let discount = sheet::discount_of(sheet);
    'options: {
        for activity in &ACTIVITIES {
            let terms = sheet::terms_of(sheet, *activity);
            option::fields(discount, terms, *activity)?;
            let count = terms.overhauls.count;
            let mut last = 0;
            for j in 0..8 {
                let age = sheet::age_of(sheet, *activity, j);
                let amount = sheet::amount_of(sheet, *activity, j);
                if !option::entry_ok(count, j as u64, last, age, amount) {
                    break 'options Err(Refusal::Overhauls(*activity));
                }
                last = age;
            }
        }
        Ok(())
    }
}
