// The lines: one for each difference, and the counts.

use crate::compared::Tally;
use std::{fmt, io};

// 1, and a line with the sheet's number and what differs; or 0.
pub fn differs(rt: &impl Print, number: u64, what: &str, same: bool) -> io::Result<u64> {
    if !same {
        println!(rt; "{what} differs on sheet {number}")?;
    }
    Ok(u64::from(!same))
}

impl fmt::Display for Tally {
    fn fmt<W: fmt::Write>(&self, f: &mut fmt::Formatter<W>) -> fmt::Result {
        writeln!(f, "sheets {}", self.sheets)?;
        writeln!(f, "version 2 {}", self.version_2)?;
        writeln!(f, "feasible {}", self.feasible)?;
        writeln!(f, "refused {}", self.refused)?;
        writeln!(f, "ties {}", self.ties)?;
        writeln!(f, "changed by removals {}", self.changed)?;
        writeln!(f, "chains {}", self.chains)?;
        write!(f, "differences {}", self.differences)
    }
}
