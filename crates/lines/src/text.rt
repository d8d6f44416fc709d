// Words and numbers are put into a text from a place on; the place behind them is answered.

ghost use Rattle.std.specs.Prelude.{◌≡◌, ◌+◌, ◌≤◌, length};
ghost use Rattle.std.proofs.lemmas.List.Edits.{sets};
ghost use Rattle.lines.specs.Lines.{places, digits, spaced, line, pair_line};
ghost use Rattle.lines.specs.Puts.{Puts};

fn put_word(text: &mut [u8], at: usize, word: &[u8]) -> usize
    requires { at + length word.now ≤ length text.old }
    ensures { Puts text.old at word.now text.new result }
{
    let end = at + word.len();
    text[at..end].copy_from_slice(word);
    end
}

// How many digits a number has.
#[tactic(auto, using(crate::proofs::DecimalLaws::places_counted))]
fn places(number: u64) -> usize
    ensures { result ≡ places 19 number }
{
    number.max(1).ilog10() as usize + 1
}

// Puts that many digits of a number, the last one first.
#[tactic(auto, using(crate::proofs::DecimalLaws::digit_put, crate::proofs::DecimalLaws::digit_none))]
fn put_digits(text: &mut [u8], at: usize, count: usize, number: u64)
    requires { at + count ≤ length text.old }
    ensures { text.new ≡ sets text.old at (digits count number) }
{
    let mut rest = number;
    for k in (0..count).rev() {
        text[at + k] = (48 + rest % 10) as u8;
        rest /= 10;
    }
}

// A blank and a number.
fn put_number(text: &mut [u8], at: usize, number: u64) -> usize
    requires { at + length (spaced number) ≤ length text.old }
    ensures { Puts text.old at (spaced number) text.new result }
{
    let count = places(number);
    text[at] = b' ';
    put_digits(text, at + 1, count, number);
    at + 1 + count
}

// A line of a word and a number, which has at most 20 digits.
#[tactic(auto, using(crate::proofs::LineLaws::lining))]
pub fn put_line(text: &mut [u8], at: usize, word: &[u8], number: u64) -> usize
    requires { at + length word.now + 22 ≤ length text.old }
    ensures puts { Puts text.old at (line word.now number) text.new result }
    ensures short { result ≤ at + length word.now + 22 }
{
    let behind = put_word(text, at, word);
    let end = put_number(text, behind, number);
    put_word(text, end, b"\n")
}

// A line of a word and two numbers of at most 5 digits.
#[tactic(auto, using(crate::proofs::LineLaws::lining))]
pub fn put_pair(text: &mut [u8], at: usize, word: &[u8], first: u64, second: u64) -> usize
    requires { (first ≤ 65_535) × (second ≤ 65_535) × (at + length word.now + 13 ≤ length text.old) }
    ensures puts { Puts text.old at (pair_line word.now first second) text.new result }
    ensures short { result ≤ at + length word.now + 13 }
{
    let behind = put_word(text, at, word);
    let between = put_number(text, behind, first);
    let end = put_number(text, between, second);
    put_word(text, end, b"\n")
}
