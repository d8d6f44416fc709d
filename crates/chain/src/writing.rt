// Writes the bytes of a plan to the front of a lent buffer: document 01, 'Feasible chains', its last paragraph.

ghost use Rattle.std.specs.Prelude.{◌≡◌, ◌+◌, ◌*◌, ◌≤◌, length};
ghost use Rattle.std.proofs.lemmas.List.Edits.{sets};
ghost use Rattle.chain.specs.PlanBytes.{end_bytes, header, plan_size, encode};

use base::numbers;

// Writes mark, version, total, i, j and the number of replacements.
#[tactic(auto, unfolding(crate::specs::PlanBytes::header, base::specs::Numbers::bytes_of))]
fn put_header(plan: &mut [u8], total: u64, i: u64, j: u64, count: u64)
    requires { 19 ≤ length plan.old }
    ensures { plan.new ≡ sets plan.old 0 (header total i j count) }
{
    plan[..3].copy_from_slice(b"RCP");
    numbers::put(plan, 3, 2, 1);
    numbers::put(plan, 5, 8, total);
    numbers::put(plan, 13, 2, i);
    numbers::put(plan, 15, 2, j);
    numbers::put(plan, 17, 2, count);
}

// Writes end years behind the header, two bytes each.
#[tactic(auto, using(crate::proofs::WriteLaws::sets_end, crate::proofs::WriteLaws::sets_no_end))]
fn put_ends(plan: &mut [u8], ends: &[u64])
    requires { plan_size (length ends.now) ≤ length plan.old }
    ensures { plan.new ≡ sets plan.old 19 (end_bytes ends.now) }
{
    for (k, end) in ends.iter().enumerate() {
        numbers::put(plan, 19 + 2 * k, 2, *end);
    }
}

// Writes the plan of a total and a chain with these end years; the bytes behind the plan are kept.
pub fn write_plan(plan: &mut [u8], total: u64, i: u64, j: u64, ends: &[u64])
    requires { plan_size (length ends.now) ≤ length plan.old }
    ensures { plan.new ≡ sets plan.old 0 (encode total (record { i = i; j = j; ends = ends.now })) }
{
    put_header(plan, total, i, j, ends.len() as u64);
    put_ends(plan, ends);
}
