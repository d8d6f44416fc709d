// Document 02, request 6: case 12 with removal 3; a sheet that pays removals alone, and none where it is maintained and then renovated up to T; a
// sheet on which a removal of 6 makes one replacement cheaper than two; and the paper's case study.

use crate::lent_words::{years_0_to_4, years_to_300};
use crate::paper::five_replacements;
use crate::planned::amply;
use std::io;
use test_sheets::removals;

pub fn plans(rt: &impl Print) -> io::Result<()> {
    amply(rt, "case 12 removed", &removals::case_12().0)?;
    amply(rt, "removals alone", &removals::alone().0)?;
    amply(rt, "overhauled", &removals::overhauled(0).0)?;
    amply(rt, "overhauled, removal 6", &removals::overhauled(6).0)?;
    five_replacements(rt, "paper removed", &removals::case_study().0)
}

pub fn words(rt: &impl Print) -> io::Result<()> {
    years_0_to_4(rt, "case 12 removed, words", &removals::case_12().0)?;
    years_0_to_4(rt, "removals alone, words", &removals::alone().0)?;
    years_to_300(rt, "paper removed, words", &removals::case_study().0)
}
