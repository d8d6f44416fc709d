// An option's record of 89 or 97 bytes, read into `Terms`.

ghost use Rattle.std.specs.Prelude.{◌≡◌, ◌+◌, ◌≤◌, Bool, true, length};
ghost use Rattle.base.specs.Lists.{listed};
ghost use Rattle.sheet.specs.Sheet.{expense_at, once_at, overhaul_at, removal_at, option_at};
ghost use Rattle.sheet.specs.Parsed.{flow_of, overhauls_of, terms_of};

use crate::{Flow, Overhauls, Terms, fields};
use base::numbers;

// An amount with its inflation, paid once: it has no ageing.
fn once_at(s: &[u8], at: usize) -> Flow
    requires { at + 8 ≤ length s.now }
    ensures { result ≡ flow_of (once_at s.now at) }
{
    Flow {
        amount: numbers::u32_at(s, at),
        grow: fields::factor_at(s, at + 4),
        age: 1_000_000,
    }
}

// An amount with its inflation and its ageing.
fn flow_at(s: &[u8], at: usize) -> Flow
    requires { at + 12 ≤ length s.now }
    ensures { result ≡ flow_of (expense_at s.now at) }
{
    Flow {
        amount: numbers::u32_at(s, at),
        grow: fields::factor_at(s, at + 4),
        age: 1_000_000 + numbers::u32_at(s, at + 8),
    }
}

// The ages of the eight overhauls of the record at `at`, their amounts, and all that it says of overhauls.
fn ages_at(s: &[u8], at: usize) -> [u64; 8]
    requires { at + 89 ≤ length s.now }
    ensures { result ≡ listed 8 (λ j. (overhaul_at s.now at j).age) }
{
    [
        numbers::u16_at(s, at + 41),
        numbers::u16_at(s, at + 47),
        numbers::u16_at(s, at + 53),
        numbers::u16_at(s, at + 59),
        numbers::u16_at(s, at + 65),
        numbers::u16_at(s, at + 71),
        numbers::u16_at(s, at + 77),
        numbers::u16_at(s, at + 83),
    ]
}

fn amounts_at(s: &[u8], at: usize) -> [u64; 8]
    requires { at + 89 ≤ length s.now }
    ensures { result ≡ listed 8 (λ j. (overhaul_at s.now at j).amount) }
{
    [
        numbers::u32_at(s, at + 43),
        numbers::u32_at(s, at + 49),
        numbers::u32_at(s, at + 55),
        numbers::u32_at(s, at + 61),
        numbers::u32_at(s, at + 67),
        numbers::u32_at(s, at + 73),
        numbers::u32_at(s, at + 79),
        numbers::u32_at(s, at + 85),
    ]
}

fn overhauls_at(s: &[u8], at: usize) -> Overhauls
    requires { at + 89 ≤ length s.now }
    ensures { (long : Bool) → result ≡ overhauls_of (option_at long s.now at) }
{
    let ages = ages_at(s, at);
    let amounts = amounts_at(s, at);
    Overhauls {
        grow: fields::factor_at(s, at + 36),
        count: numbers::u8_at(s, at + 40),
        ages,
        amounts,
    }
}

// The removal that stands at `at` in the longer sheet; another sheet has none.
fn removal_at(s: &[u8], at: usize, long: bool) -> Flow
    requires { long ≡ true → at + 8 ≤ length s.now }
    ensures { result ≡ flow_of (removal_at long s.now at) }
{
    if long {
        return once_at(s, at);
    }
    Flow {
        amount: 0,
        grow: 1_000_000,
        age: 1_000_000,
    }
}

// The terms of the option whose record starts at `at`.
pub fn terms_at(s: &[u8], at: usize, long: bool) -> Terms
    requires { (at + 89 ≤ length s.now) × (long ≡ true → at + 97 ≤ length s.now) }
    ensures { result ≡ terms_of (option_at long s.now at) }
{
    let overhauls = overhauls_at(s, at);
    let removal = removal_at(s, at + 89, long);
    Terms {
        shortest: numbers::u16_at(s, at),
        longest: numbers::u16_at(s, at + 2),
        investment: once_at(s, at + 4),
        maintenance: flow_at(s, at + 12),
        electricity: flow_at(s, at + 24),
        overhauls,
        removal,
    }
}
