// Whether the removals of a sheet change which of its chains is taken.

use crate::figures::{Figures, Terms};
use crate::listing::{Listed, chains};

fn without_removal(o: Terms) -> Terms {
    Terms { removal: None, ..o }
}

pub fn by_removals(f: Figures, listed: Listed) -> bool {
    if f.version == 1 {
        return false;
    }
    let bare = Figures {
        maintain: without_removal(f.maintain),
        renovate: without_removal(f.renovate),
        replace: without_removal(f.replace),
        ..f
    };
    let chain = listed.least.map(|least| least.chain);
    chain != chains(bare).least.map(|least| least.chain)
}
