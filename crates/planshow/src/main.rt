// Reads a sheet on standard input and prints its plan, or its refusal: document 01, the program `planshow`. One byte more than the longer
// sheet is read, so that a longer input has the wrong length too.

#![tactic(auto)]

const IN: i32 = 0;

const OUT: i32 = 1;

fn main() {
    let mut sheet = [0u8; 303];
    let length = io::read_full(IN, &mut sheet);
    let mut text = [0u8; printing::ROOM];
    let printed = printing::show(&sheet[..length], &mut text);
    io::write_all(OUT, &text[..printed]);
}
