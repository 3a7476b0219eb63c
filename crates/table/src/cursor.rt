// The cursor that is handed back after each field, and the fields of one, two and three bytes.
ghost use Rattle.std.specs.Prelude.{◌≡◌};
ghost use Rattle.meaning.specs.Table as spec;
ghost use Rattle.meaning.specs.Table.{times};
ghost use Rattle.table.specs.Views.{field_of, symbol_of, step_of};

use fields::{byte_at, cut, number_at, outside};
use meaning::Refusal;

// A place of the table, by value: each field takes it and hands back the next.
// Kept: the table stands beside it; a cursor that held it would have each contract say that the next one's table is the same.
#[derive(Clone, Copy)]
pub(crate) struct Cursor {
    pub(crate) at: usize,
}

impl Cursor {
    // A field of one byte.
    #[tactic(auto, unfolding(meaning::specs::Table::byte_field))]
    pub(crate) fn byte(self, table: &[u8]) -> Result<(u16, Cursor), Refusal>
        ensures { field_of result ≡ spec.byte_field table.now self.at }
    {
        if cut(table, self.at, 1) {
            return Err(Refusal::Short(table.len()));
        }
        Ok((byte_at(table, self.at), Cursor { at: self.at + 1 }))
    }

    // A field of two bytes, the low one first.
    #[tactic(auto, unfolding(meaning::specs::Table::number_field))]
    pub(crate) fn number(self, table: &[u8]) -> Result<(u16, Cursor), Refusal>
        ensures { field_of result ≡ spec.number_field table.now self.at }
    {
        if cut(table, self.at, 2) {
            return Err(Refusal::Short(table.len()));
        }
        Ok((number_at(table, self.at), Cursor { at: self.at + 2 }))
    }

    // A symbol's three bytes: its kind and its number.
    // Kept: the kind as the byte says it, since a refusal names the byte that is wrong.
    #[tactic(auto, unfolding(meaning::specs::Table::symbol_field))]
    pub(crate) fn symbol_field(self, table: &[u8]) -> Result<(u16, u16, Cursor), Refusal>
        ensures { symbol_of result ≡ spec.symbol_field table.now self.at }
    {
        if cut(table, self.at, 3) {
            return Err(Refusal::Short(table.len()));
        }
        let kind = byte_at(table, self.at);
        let n = number_at(table, self.at + 1);
        Ok((kind, n, Cursor { at: self.at + 3 }))
    }

    // A field of one byte that lies within limits, or is refused for a reason.
    #[tactic(auto, unfolding(meaning::specs::Table::limited))]
    fn limited(self, table: &[u8], low: u16, high: u16, why: Refusal) -> Result<Cursor, Refusal>
        ensures { step_of result ≡ spec.limited table.now low high why self.at }
    {
        let (x, next) = self.byte(table)?;
        if outside(low, high, x) {
            return Err(why);
        }
        Ok(next)
    }

    // The dimension of a category, 1 to 3.
    fn dimension(self, table: &[u8]) -> Result<Cursor, Refusal>
        ensures { step_of result ≡ spec.dimension table.now self.at }
    {
        self.limited(table, 1, 3, Refusal::Range(self.at))
    }

    // The dimensions of as many categories, one after another.
    // Kept: this, categories, symbols and rows are loops of one line each; one method over a closure has a contract longer than they are.
    #[tactic(auto, using(fields::proofs::Laws::turns))]
    pub(crate) fn dimensions(self, table: &[u8], count: usize) -> Result<Cursor, Refusal>
        ensures { step_of result ≡ times count (spec.dimension table.now) self.at }
    {
        let mut c = self;
        for _ in 0..count {
            c = c.dimension(table)?;
        }
        Ok(c)
    }

    // The number of a category, 1 to K.
    pub(crate) fn category(self, table: &[u8]) -> Result<Cursor, Refusal>
        ensures { step_of result ≡ spec.category table.now self.at }
    {
        self.limited(table, 1, byte_at(table, 5), Refusal::Category(self.at))
    }

    // The categories of as many daughters, one after another.
    #[tactic(auto, using(fields::proofs::Laws::turns))]
    pub(crate) fn categories(self, table: &[u8], count: usize) -> Result<Cursor, Refusal>
        ensures { step_of result ≡ times count (spec.category table.now) self.at }
    {
        let mut c = self;
        for _ in 0..count {
            c = c.category(table)?;
        }
        Ok(c)
    }

    // A rule's rank, 0 to 3.
    pub(crate) fn rank(self, table: &[u8]) -> Result<Cursor, Refusal>
        ensures { step_of result ≡ spec.rank table.now self.at }
    {
        self.limited(table, 0, 3, Refusal::Range(self.at))
    }
}
