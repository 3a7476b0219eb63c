// What one rule with given daughters gives in a sentence. Each file holds one topic; here stands what other crates may name.
#![tactic(auto)]

mod giving;
mod items;
mod ranges;
mod rows;

pub use giving::{fits, kinds};
pub use items::{Daughters, Item, held, item_of, range_at};
pub use ranges::{Range, is_range};
pub use rows::{row_next, row_of};
