// What a row can have where daughters of one part may be any known ones: a walk over sets of places.
#![tactic(auto)]

mod known;
mod places;
mod ranges;
mod rows;
mod setting;

pub use known::enter_all;
pub use places::minus;
pub use ranges::set_next;
pub use rows::{Free, row_set};
