// A rate in a sheet, read as its factor.

ghost use Rattle.std.specs.Prelude.{◌≡◌, ◌+◌, ◌<◌, ◌≤◌, length};
ghost use Rattle.std.proofs.Common.{to_z};
ghost use Rattle.std.specs.Int.{w32};
ghost use Rattle.base.specs.Numbers.{i32_at};
ghost use Rattle.sheet.specs.Sheet.{factor};

use base::numbers;

// The factor of the i32 whose four bytes read as `x` unsigned.
fn factor_of(x: u64) -> u64
    requires { x < 4_294_967_296 }
    ensures { result ≡ factor (to_z w32 x) }
{
    if x < 2_147_483_648 {
        return 1_000_000 + x;
    }
    if x < 4_293_967_296 {
        return 0;
    }
    x - 4_293_967_296
}

// The factor of the i32 at `at`.
pub fn factor_at(s: &[u8], at: usize) -> u64
    requires { at + 4 ≤ length s.now }
    ensures { result ≡ factor (i32_at s.now at) }
{
    factor_of(numbers::u32_at(s, at))
}
