// Runs `plan` on sheets and prints the plan of each, or its refusal; the file `stdout` beside `src` has the lines expected. Cases 9 to 12 of
// document 01, and case 12 with buffers at their limits; the paper's case study, its plan priced, and its sheet with replace not offered;
// sheets on which maintaining and renovating are taken; sheets with removals; faulty sheets; and the words that are lent.

#![tactic(auto)]

use std::io;

mod document;
mod faulty;
mod lent_words;
mod paper;
mod planned;
mod postponed;
mod removals;
mod show;

fn all(rt: &impl Print) -> io::Result<()> {
    document::cases(rt)?;
    paper::replacements(rt)?;
    paper::none(rt)?;
    postponed::all_free(rt)?;
    postponed::maintained(rt)?;
    postponed::motors(rt)?;
    removals::plans(rt)?;
    document::lengths(rt)?;
    faulty::sheets(rt)?;
    lent_words::cases(rt)?;
    lent_words::replacements(rt)?;
    lent_words::none(rt)?;
    removals::words(rt)
}

// Lines that cannot be written are not told: what was printed is compared.
fn main(rt: HostRuntime) {
    let _ = all(&rt);
}
