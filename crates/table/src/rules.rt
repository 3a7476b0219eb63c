// The rules of the table: head, daughters, rows, and that every constituent was used.
ghost use Rattle.std.specs.Prelude.{◌≡◌, ◌∷◌, ◌≤◌, length};
ghost use Rattle.meaning.specs.Table as spec;
ghost use Rattle.meaning.specs.Accepted.{Headed};
ghost use Rattle.table.specs.Views.{step_of, step_with, firsts};

use crate::cursor::Cursor;
use crate::head::{Begun, Head};
use crate::marks::Marks;
use fields::{byte_at, number_at};
use meaning::Refusal;

impl Cursor {
    // A rule's function number, category and rank. The function numbers of the rules before it are given.
    #[tactic(auto, using(crate::proofs::Laws::member_all), unfolding(meaning::specs::Table::rule_head))]
    fn rule_head(self, table: &[u8], earlier: &[u16]) -> Result<Cursor, Refusal>
        ensures { step_of result ≡ spec.rule_head table.now (firsts (length earlier.now) earlier.now) self.at }
    {
        let (f, category) = self.number(table)?;
        if f == 0 || earlier.contains(&f) {
            return Err(Refusal::Function(self.at));
        }
        let rank = category.category(table)?;
        rank.rank(table)
    }

    // The rest of the rule that starts at the place rule.
    #[tactic(auto, using(crate::proofs::Known::read), unfolding(meaning::specs::Table::rule_body))]
    fn rule_body(self, table: Begun, rule: usize) -> Result<Cursor, Refusal>
        requires { Headed table.bytes.now rule self.at }
        ensures { step_of result ≡ spec.rule_body table.entry.bytes.now rule self.at }
    {
        let bytes = table.bytes;
        let rows = self.categories(bytes, usize::from(byte_at(bytes, rule + 3)))?;
        let head = Head {
            table: bytes,
            at: rule,
        };
        let mut marks = Marks::new();
        let next = rows.rows(head, usize::from(head.rows()), &mut marks)?;
        if head.missing(&marks) {
            return Err(Refusal::Missing(rule));
        }
        Ok(next)
    }

    // A rule. The function numbers of the rules before it are given.
    #[tactic(auto, using(meaning::proofs::Fields::headed), unfolding(meaning::specs::Table::rule))]
    fn rule(self, table: Begun, earlier: &[u16]) -> Result<Cursor, Refusal>
        ensures { let seen = firsts (length earlier.now) earlier.now in
            step_with result (spec.number table.entry.bytes.now self.at ∷ seen) ≡ spec.rule table.entry.bytes.now (self.at, seen) }
    {
        let body = self.rule_head(table.bytes, earlier)?;
        body.rule_body(table, self.at)
    }

    // As many rules, one after another, each with a function number of its own.
    #[tactic(auto, using(crate::proofs::Laws::numbered), unfolding(meaning::specs::Table::rules, crate::specs::Views::firsts))]
    pub(crate) fn rules(self, table: Begun, count: usize) -> Result<Cursor, Refusal>
        requires { count ≤ 256 }
        ensures { step_of result ≡ spec.rules table.entry.bytes.now count self.at }
    {
        let mut seen = [0u16; 256];
        let mut c = self;
        for n in 0..count {
            let f = number_at(table.bytes, c.at);
            c = c.rule(table, &seen[..n])?;
            seen[n] = f;
        }
        Ok(c)
    }
}
