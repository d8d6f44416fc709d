// Planning: document 01, 'Feasible chains'. The public call is `plan`.

#![tactic(auto)]

ghost use Rattle.std.specs.Prelude.{◌≡◌};
ghost use Rattle.base.specs.Outcome.{answer_of};
ghost use Rattle.planning.specs.Planning.{plan_answer, plan_after, words_after};
ghost use Rattle.planner.specs.Promises.{Promised};

use base::Refusal;
use sheet::YEARS;

mod written;

// Finds the chain of least rounded total, writes its plan, and lends the cheapest replacements from every year.
pub fn plan(sheet: &[u8], plan: &mut [u8], words: &mut [u64]) -> Result<u64, Refusal>
    ensures answer { answer_of result ≡ plan_answer sheet.now plan.old words.old }
    ensures plan { plan.new ≡ plan_after sheet.now plan.old words.old }
    ensures words { words.new ≡ words_after sheet.now plan.old words.old }
    ensures promised { Promised sheet.now plan.old words.old (answer_of result) plan.new words.new }
{
    checking::check(sheet)?;
    if words.len() < tails::WORDS {
        return Err(Refusal::Words);
    }
    let parsed = sheet::parse(sheet);
    let mut firsts = [0u64; YEARS];
    tails::tail_words(words, &mut firsts, parsed);
    written::write_chosen(parsed, plan, words, &firsts)
}
