// A case's line: its name, then `accepted` or the refusal.

use base::Refusal;
use std::{fmt, io};

#[derive(Clone, Copy)]
pub struct Checked(Result<(), Refusal>);

impl fmt::Display for Checked {
    fn fmt<W: fmt::Write>(&self, f: &mut fmt::Formatter<W>) -> fmt::Result {
        match self.0 {
            Ok(()) => f.write_str("accepted"),
            Err(refusal) => write!(f, "{refusal}"),
        }
    }
}

pub fn check(sheet: &[u8]) -> Checked {
    Checked(checking::check(sheet))
}

pub fn answer(rt: &impl Print, name: &str, sheet: &[u8]) -> io::Result<()> {
    println!(rt; "{name}: {}", check(sheet))
}
