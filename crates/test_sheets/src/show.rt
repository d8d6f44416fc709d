// What the programs print of an outcome.

use base::Refusal;
use std::fmt;

// The total after what it is called, or the refusal.
#[derive(Clone, Copy)]
pub struct Named<'a>(pub &'a str, pub Result<u64, Refusal>);

impl fmt::Display for Named<'_> {
    fn fmt<W: fmt::Write>(&self, f: &mut fmt::Formatter<W>) -> fmt::Result {
        match self.1 {
            Ok(total) => write!(f, "{} {total}", self.0),
            Err(refusal) => write!(f, "{refusal}"),
        }
    }
}
