// The rows of a rule, symbol by symbol, with the use marks that they leave.
ghost use Rattle.std.specs.Prelude.{◌≡◌};
ghost use Rattle.meaning.specs.Table as spec;
ghost use Rattle.meaning.specs.Table.{times};
ghost use Rattle.table.specs.Views.{step_with, used_of};

use crate::cursor::Cursor;
use crate::head::Head;
use crate::marks::Marks;
use meaning::Refusal;

impl Cursor {
    // A symbol of the rule at a place: a word, or a constituent that its use marks.
    #[tactic(auto, using(crate::proofs::Known::read), unfolding(meaning::specs::Table::symbol, meaning::specs::Table::word))]
    fn symbol(self, rule: Head, marks: &mut Marks) -> Result<Cursor, Refusal>
        ensures { step_with result (used_of marks.new.used) ≡ spec.symbol rule.entry.table.now rule.entry.at (self.at, used_of marks.old.used) }
    {
        let (kind, n, next) = self.symbol_field(rule.table)?;
        if kind != 0 {
            rule.part(self.at, kind, n, marks)?;
        } else if n == 0 {
            return Err(Refusal::Symbol(self.at + 1));
        }
        Ok(next)
    }

    // As many symbols, one after another.
    #[tactic(auto, using(fields::proofs::Laws::turns))]
    fn symbols(self, rule: Head, count: usize, marks: &mut Marks) -> Result<Cursor, Refusal>
        ensures { step_with result (used_of marks.new.used) ≡ times count (spec.symbol rule.entry.table.now rule.entry.at) (self.at, used_of marks.old.used) }
    {
        let mut c = self;
        for _ in 0..count {
            c = c.symbol(rule, marks)?;
        }
        Ok(c)
    }

    // A row: its length, 0 to 16, then its symbols.
    #[tactic(auto, unfolding(meaning::specs::Table::row))]
    fn row(self, rule: Head, marks: &mut Marks) -> Result<Cursor, Refusal>
        ensures { step_with result (used_of marks.new.used) ≡ spec.row rule.entry.table.now rule.entry.at (self.at, used_of marks.old.used) }
    {
        let (n, next) = self.byte(rule.table)?;
        if 16 < n {
            return Err(Refusal::Range(self.at));
        }
        next.symbols(rule, usize::from(n), marks)
    }

    // As many rows, one after another.
    #[tactic(auto, using(fields::proofs::Laws::turns))]
    pub(crate) fn rows(self, rule: Head, count: usize, marks: &mut Marks) -> Result<Cursor, Refusal>
        ensures { step_with result (used_of marks.new.used) ≡ times count (spec.row rule.entry.table.now rule.entry.at) (self.at, used_of marks.old.used) }
    {
        let mut c = self;
        for _ in 0..count {
            c = c.row(rule, marks)?;
        }
        Ok(c)
    }
}
