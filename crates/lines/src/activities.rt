// The lines of a plan.

ghost use Rattle.std.specs.Prelude.{◌≡◌, ◌+◌, ◌*◌, ◌≤◌, length};
ghost use Rattle.chain.specs.Chain.{replacements};
ghost use Rattle.chain.specs.PlanBytes.{plan_size, total_field, count_field, ends_at};
ghost use Rattle.lines.specs.Lines.{activity_lines, lines_of};
ghost use Rattle.lines.specs.Texts.{text_for};
ghost use Rattle.lines.specs.Puts.{Puts};

use crate::text::{put_line, put_pair};
use base::numbers;
use chain::reading;

// The total field of a plan.
#[tactic(auto, unfolding(base::specs::Numbers::u32_at, base::specs::Numbers::number_at))]
fn total_of(plan: &[u8]) -> u64
    requires { 19 ≤ length plan.now }
    ensures { result ≡ total_field plan.now }
{
    numbers::u32_at(plan, 5) + 4_294_967_296 * numbers::u32_at(plan, 9)
}

// The lines of replacements from a year on: that many, whose ends stand from byte 19 on.
#[tactic(auto, using(crate::proofs::LineLaws::replacing))]
fn put_replacements(text: &mut [u8], start: usize, plan: &[u8], first: u64, count: usize) -> usize
    requires { (plan_size count ≤ length plan.now) × (first ≤ 65_535) × (start + 20 * count ≤ length text.old) }
    ensures { Puts text.old start (activity_lines (replacements first (ends_at plan.now 19 count))) text.new result }
{
    let mut at = start;
    let mut year = first;
    for k in 0..count {
        let end = reading::end_at(plan, k);
        at = put_pair(text, at, b"replace", year, end);
        year = end;
    }
    at
}

// The lines of a plan with that many replacements.
pub fn put_plan(text: &mut [u8], plan: &[u8], count: usize) -> usize
    requires { (count ≡ count_field plan.now) × (plan_size count ≤ length plan.now) × (text_for count ≤ length text.old) }
    ensures { Puts text.old 0 (lines_of plan.now) text.new result }
{
    let i = reading::i_of(plan);
    let j = reading::j_of(plan);
    let maintain = put_line(text, 0, b"total", total_of(plan));
    let renovate = put_pair(text, maintain, b"maintain", 0, i);
    let replace = put_pair(text, renovate, b"renovate", i, j);
    put_replacements(text, replace, plan, j, count)
}
