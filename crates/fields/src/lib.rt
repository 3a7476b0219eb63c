// Numbers in bytes: what a table's and a sentence's fields are read by. No rule of the table stands here.
#![tactic(auto)]

mod bytes;

pub use bytes::{byte_at, cut, number_at, outside};
