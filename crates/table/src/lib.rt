// The check of a rule table.
#![tactic(auto)]

ghost use Rattle.std.specs.Prelude.{◌≡◌};
ghost use Rattle.meaning.specs.Table as spec;
ghost use Rattle.table.specs.Views.{verdict_of};

use crate::head::Begun;
use crate::header::header;
use fields::{byte_at, number_at};
use meaning::Refusal;

mod cursor;
mod head;
mod header;
mod marks;
mod rows;
mod rules;

// What a rule table's bytes are answered: nothing to say, or the first refusal in document 01's order.
#[tactic(auto, using(crate::proofs::Known::read), unfolding(meaning::specs::Table::check_table))]
pub fn check_table(table: &[u8]) -> Result<(), Refusal>
    ensures { verdict_of result ≡ spec.check_table table.now }
{
    let dimensions = header(table)?;
    let rules = dimensions.dimensions(table, usize::from(byte_at(table, 5)))?;
    let start = 8 + usize::from(byte_at(table, 6));
    if byte_at(table, start) != 1 {
        return Err(Refusal::Start(start));
    }
    let end = rules.rules(Begun { bytes: table }, usize::from(number_at(table, 7)))?;
    if end.at < table.len() {
        return Err(Refusal::Trailing(end.at));
    }
    Ok(())
}
