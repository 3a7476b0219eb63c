// What the daughters that are chosen, and the item that is wanted, ask of a daughter that is not chosen yet. Here stands what other crates may name.
#![tactic(auto)]

mod asking;
mod codes;
mod order;
mod passes;
mod steps;

pub use asking::wants_of;
pub use codes::{meets, reach_of};
pub use order::turn_of;

// What is known of a place between two symbols of a row, or asked of where a part starts or ends: any place, one place, or none, since the
// row cannot run so.
#[derive(Clone, Copy)]
pub enum Place {
    Any,
    At(usize),
    Nowhere,
}

// Where a part that is not empty must start and end.
#[derive(Clone, Copy)]
pub struct Want {
    pub from: Place,
    pub to: Place,
}

impl Want {
    // Nothing is wanted.
    pub const NOTHING: Want = Want {
        from: Place::Any,
        to: Place::Any,
    };
}

// What is asked of a daughter: its height, from low to high, and what its parts want.
// Kept: a field for each part, since an array is a list of any length in a clause, so that each law over the parts would have to say that there are three.
#[derive(Clone, Copy)]
pub struct Wants {
    pub low: u64,
    pub high: u64,
    pub one: Want,
    pub two: Want,
    pub three: Want,
}

// Two parts of the codes, the first before the second: from low up to but not including high.
// Kept: four numbers, since a std range is no Copy, and Reaches puts them in one order (specs/Hint.antt).
#[derive(Clone, Copy)]
pub struct Reach {
    pub low: u64,
    pub high: u64,
    pub low2: u64,
    pub high2: u64,
}
