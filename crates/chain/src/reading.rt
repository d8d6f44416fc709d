// Reads the numbers of a chain from the bytes of its plan: document 01, 'Feasible chains', its last paragraph.

ghost use Rattle.std.specs.Prelude.{◌≡◌, ◌+◌, ◌*◌, ◌<◌, ◌≤◌, length};
ghost use Rattle.chain.specs.PlanBytes.{plan_size, i_field, j_field, count_field, end_field};

use base::numbers;

// i, the year in which maintain ends.
pub fn i_of(plan: &[u8]) -> u64
    requires { 19 ≤ length plan.now }
    ensures { (result ≡ i_field plan.now) × (result < 65_536) }
{
    numbers::u16_at(plan, 13)
}

// j, the year in which renovate ends.
pub fn j_of(plan: &[u8]) -> u64
    requires { 19 ≤ length plan.now }
    ensures { (result ≡ j_field plan.now) × (result < 65_536) }
{
    numbers::u16_at(plan, 15)
}

// m, the number of replacements.
pub fn count_of(plan: &[u8]) -> usize
    requires { 19 ≤ length plan.now }
    ensures { (result ≡ count_field plan.now) × (result < 65_536) }
{
    numbers::u16_at(plan, 17) as usize
}

// The year in which replacement k ends, the first of which is 0.
pub fn end_at(plan: &[u8], k: usize) -> u64
    requires { plan_size (k + 1) ≤ length plan.now }
    ensures { (result ≡ end_field plan.now k) × (result < 65_536) }
{
    numbers::u16_at(plan, 19 + 2 * k)
}
