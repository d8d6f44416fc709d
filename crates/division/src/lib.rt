// Division of 64-bit numbers by one divisor many times: one multiplication by a reciprocal that is made once.
// Nothing here is a public call: `Divisor` serves the crates above, which meet what it requires.

#![tactic(auto)]

ghost use Rattle.std.specs.Prelude.{◌≡◌, ◌+◌, ◌*◌, ◌/◌, ◌^◌, ◌<◌, ◌≤◌};

// Powers of two: 32 + 51 and 64 + 19 are both 83.
const TWO_19: u64 = 524_288;

const TWO_32: u64 = 4_294_967_296;

const TWO_51: u64 = 2_251_799_813_685_248;

// A divisor, and 2^83 over it to the nearest whole number. `more` is 1 where that lies below 2^83 over the divisor, else 0.
#[derive(Clone, Copy)]
pub struct Divisor {
    pub by: u64,
    pub inverse: u64,
    pub more: u64,
    pub ghost positive: { 0 < by },
    pub ghost small: { by ≤ 1_200_000 },
    // The reciprocal times the divisor is within half a divisor of 2^83, which goes into it once, or not at all where it lies below.
    pub ghost high: { 2 * (inverse * by) ≤ 2 * 2 ^ 83 + by },
    pub ghost low: { 2 * 2 ^ 83 ≤ 2 * (inverse * by) + by },
    pub ghost rounded: { more + inverse * by / 2 ^ 83 ≡ 1 },
}

// The upper half of the product of two numbers, by their halves: the compiler makes one multiplication of this form, and the sums of the halves
// are what the edit `carry_of_the_lower_sum_lost` takes a carry from, which std's `carrying_mul` would hide.
fn upper(x: u64, y: u64) -> u64
    ensures { result ≡ x * y / 2 ^ 64 }
{
    let a = x / TWO_32;
    let b = x % TWO_32;
    let c = y / TWO_32;
    let d = y % TWO_32;
    let middle = a * d + b * d / TWO_32;
    let lower = middle % TWO_32 + b * c;
    a * c + middle / TWO_32 + lower / TWO_32
}

impl Divisor {
    ghost use Rattle.division.specs.Division.{DivisorReady};

    // The divisor of a discount factor. 2^83 - 1 is divided in two steps; `left` is what it leaves.
    pub fn of(by: u64) -> Divisor
        requires { (1_000_000 ≤ by) × (by ≤ 1_200_000) }
        ensures number { result.by ≡ by }
        ensures ready { DivisorReady result }
    {
        let high = (TWO_51 - 1) / by;
        let rest = TWO_51 - 1 - high * by;
        let lower = rest * TWO_32 + (TWO_32 - 1);
        let low = lower / by;
        let left = lower - low * by;
        let inverse = high * TWO_32 + low;
        if 2 * (left + 1) <= by {
            return Divisor {
                by,
                inverse,
                more: 1,
            };
        }
        Divisor {
            by,
            inverse: inverse + 1,
            more: 0,
        }
    }

    // n over the divisor.
    pub fn quotient(self, n: u64) -> u64
        requires { n ≤ 16_000_000_000_000_000_000 }
        ensures { result ≡ n / self.by }
    {
        upper(n + self.more, self.inverse) / TWO_19
    }
}
