// A plan as lines of text: document 01, the program `planshow`. `plan_lines` ends on every input and asks nothing; `text` serves the crate
// above, which meets what it requires.

#![tactic(auto)]

ghost use Rattle.std.specs.Prelude.{◌≡◌};
ghost use Rattle.lines.specs.Texts.{lines_after, lines_length, AtFront};

use chain::reading;

mod activities;
pub mod text;

// Prints a plan, whoever made it, to the front of a text, and answers how many bytes its lines have; 0 where the plan does not lie whole in
// its bytes or the text is shorter than 69 + 20m.
pub fn plan_lines(plan: &[u8], text: &mut [u8]) -> usize
    ensures text { text.new ≡ lines_after plan.now text.old }
    ensures length { result ≡ lines_length plan.now text.old }
    ensures front { AtFront result text.new }
{
    if plan.len() < 19 {
        return 0;
    }
    let count = reading::count_of(plan);
    if plan.len() < 19 + 2 * count {
        return 0;
    }
    if text.len() < 69 + 20 * count {
        return 0;
    }
    activities::put_plan(text, plan, count)
}
