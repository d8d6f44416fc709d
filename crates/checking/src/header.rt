// Refusals 1 to 4: the sheet's length, mark, version, horizon and rate.

ghost use Rattle.std.specs.Prelude.{◌≡◌, length};
ghost use Rattle.base.specs.Answer.{answered};
ghost use Rattle.base.specs.Outcome.{check_answer};
ghost use Rattle.sheet.specs.Layout.{length_ok, Sized};
ghost use Rattle.checking.specs.Refusals.{mark_ok, version_ok, header_number};

use base::{Refusal, numbers};

fn length_ok(n: usize) -> bool
    ensures { result ≡ length_ok n }
{
    (n == sheet::SHEET_LENGTH) | (n == sheet::LONG_SHEET_LENGTH)
}

fn mark_ok(s: &[u8]) -> bool
    requires { Sized s.now }
    ensures { result ≡ mark_ok s.now }
{
    (s[0] == b'R') & (s[1] == b'C') & (s[2] == b'S')
}

// Whether the version goes with the length.
fn version_ok(n: usize, version: u64) -> bool
    ensures { result ≡ version_ok n version }
{
    ((n == sheet::SHEET_LENGTH) & (version == 1))
        | ((n == sheet::LONG_SHEET_LENGTH) & (version == 2))
}

// Refused as the first of 1 to 4.
pub fn header(s: &[u8]) -> Result<(), Refusal>
    ensures { check_answer result ≡ answered (header_number s.now) 3 }
{
    if !length_ok(s.len()) {
        return Err(Refusal::Length);
    }
    let version = numbers::u16_at(s, 3);
    if !(mark_ok(s) & version_ok(s.len(), version)) {
        return Err(Refusal::Mark);
    }
    let horizon = sheet::horizon_of(s);
    if !((1 <= horizon) & (horizon <= 300)) {
        return Err(Refusal::Horizon);
    }
    let rate = numbers::u32_at(s, 7);
    if rate > 200_000 {
        return Err(Refusal::Rate);
    }
    Ok(())
}
