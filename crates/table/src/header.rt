// The nine bytes of the header.
ghost use Rattle.std.specs.Prelude.{◌≡◌};
ghost use Rattle.meaning.specs.Table as spec;
ghost use Rattle.table.specs.Views.{step_of};

use crate::cursor::Cursor;
use fields::{byte_at, number_at, outside};
use meaning::Refusal;

// The nine bytes of the header, in their order.
#[tactic(auto, unfolding(meaning::specs::Table::header))]
pub(crate) fn header(table: &[u8]) -> Result<Cursor, Refusal>
    ensures { step_of result ≡ spec.header table.now }
{
    if table.len() < 9 {
        return Err(Refusal::Short(table.len()));
    }
    if !table.starts_with(b"MCG") {
        return Err(Refusal::Mark);
    }
    if number_at(table, 3) != 1 {
        return Err(Refusal::Version);
    }
    limits(table)
}

// The number of categories, the start and the number of rules.
#[tactic(auto, unfolding(meaning::specs::Table::limits))]
fn limits(table: &[u8]) -> Result<Cursor, Refusal>
    ensures { step_of result ≡ spec.limits table.now }
{
    let categories = byte_at(table, 5);
    if outside(1, 64, categories) {
        return Err(Refusal::Range(5));
    }
    if outside(1, categories, byte_at(table, 6)) {
        return Err(Refusal::Category(6));
    }
    if 256 < number_at(table, 7) {
        return Err(Refusal::Range(7));
    }
    Ok(Cursor { at: 9 })
}
