// A row of a rule: what it makes from a start, where it can start, and the ranges that it can have.
ghost use Rattle.std.specs.Prelude.{◌≡◌, ◌<◌, IfSome};
ghost use Rattle.meaning.specs.Range as range;
ghost use Rattle.meaning.specs.Decode.{row_at};
ghost use Rattle.rules.specs.Symbols.{symbol_of};
ghost use Rattle.phrase.specs.Row as spec;
ghost use Rattle.phrase.specs.Phrase.{range_of, join_of, starts_of, held_of, symbols_of, RowIs, Decides, Has, Next, StartsAt, start_of};

use crate::items::{Daughters, held};
use crate::ranges::{Range, is_range, joined};
use rules::{Row, Rule, Symbol};
use std::ops;

// Row i of the rule, from 0, if it has one.
// Kept: the loop stands in `rule_end` of rules too, which asks for no `Rule`.
pub fn row_of<'a>(rule: Rule<'a>, i: usize) -> Option<Row<'a>>
    ensures row { RowIs rule.entry.table.now rule.entry.at i result }
    ensures of_table { IfSome result (λ r. r.table ≡ rule.entry.table) }
{
    let table = rule.table;
    if rule.dimension() <= i {
        return None;
    }
    let mut at = rule.at + 4 + rule.rank();
    for _ in 0..i {
        at = Row { table, at }.end();
    }
    Some(Row { table, at })
}

// Where a word goes next to what ends at `to`.
fn after(start: usize, to: usize) -> usize
    ensures { result ≡ spec.after start to }
{
    if to == 0 { start } else { to }
}

// The range of a word that must stand at a place.
fn word(words: &[u16], w: u16, at: usize) -> Option<Range>
    ensures { join_of result ≡ spec.word_here words.now w at }
{
    if words.get(at) == Some(&w) {
        return Some(Range {
            from: at,
            to: at + 1,
        });
    }
    None
}

// The range of a part, if it is one of the sentence's.
fn part(words: &[u16], p: Range) -> Option<Range>
    ensures { join_of result ≡ spec.part_here words.now (range_of p) }
{
    is_range(words, p).then_some(p)
}

// Where a row of so many words and no part can start: words anywhere, nothing at 0.
fn alone(words: &[u16], count: usize) -> ops::Range<usize>
    ensures { starts_of result ≡ spec.alone words.now count }
{
    let end = if count == 0 { 1 } else { words.len() };
    0..end
}

// Where a row can start that has so many words before a place; nowhere if they would stand before the sentence.
fn ahead(from: usize, count: usize) -> ops::Range<usize>
    requires { from < 65536 }
    ensures { starts_of result ≡ spec.ahead from count }
{
    from.saturating_sub(count)..(from + 1).saturating_sub(count)
}

// The words of the sentence, and the daughters whose constituents a row's parts name.
#[derive(Clone, Copy)]
struct Sources<'a> {
    words: &'a [u16],
    chosen: Daughters,
}

impl Sources<'_> {
    // The range of a symbol next to what ends at `to`.
    fn site(self, symbol: Symbol, start: usize, to: usize) -> Option<Range>
        ensures { join_of result ≡ spec.site self.entry.words.now (held_of self.entry.chosen) start to (symbol_of symbol) }
    {
        match symbol {
            Symbol::Word(w) => word(self.words, w, after(start, to)),
            Symbol::Part(k, c) => part(self.words, held(self.chosen, k, c)),
        }
    }

    // What the row makes, where its first word stands at the start.
    fn row_from(self, row: Row, start: usize) -> Option<Range>
        ensures { join_of result ≡ spec.eval self.entry.words.now (held_of self.entry.chosen) start range.none (row_at row.entry.table.now row.entry.at) }
    {
        let mut a = Range::NONE;
        for i in 0..row.len() {
            let p = self.site(row.symbol(i), start, a.to)?;
            // Kept: document 01 names this form, let .. else, for taking the joined range apart.
            let Some(b) = joined(a, p) else {
                return None;
            };
            a = b;
        }
        Some(a)
    }

    // Where the row can start: its first part that is not empty, and the words before it, say so.
    fn row_starts(self, row: Row) -> ops::Range<usize>
        ensures { starts_of result ≡ spec.starts self.entry.words.now (held_of self.entry.chosen) 0 (row_at row.entry.table.now row.entry.at) }
    {
        let mut count = 0;
        for i in 0..row.len() {
            match row.symbol(i) {
                Symbol::Word(_) => {
                    count += 1;
                }
                Symbol::Part(k, c) => {
                    let p = held(self.chosen, k, c);
                    if p.to != 0 {
                        return ahead(p.from, count);
                    }
                }
            }
        }
        alone(self.words, count)
    }

    // The range that the row can have from exactly this start.
    fn row_at(self, row: Row, start: usize) -> Option<Range>
        ensures { StartsAt (Has self.entry.words.now self.entry.chosen (row_at row.entry.table.now row.entry.at)) start (join_of result) }
    {
        let p = self.row_from(row, start)?;
        (p.from == start).then_some(p)
    }

    // The first range that the row whose bytes stand here can have from a start on.
    // Kept: a loop, since with `find_map` the goal `returns` stays open: std has a law that reads `find` over a range, and none for `find_map`.
    fn place_next(self, row: Row, from: usize) -> Option<Range>
        ensures { Next start_of (Has self.entry.words.now self.entry.chosen (row_at row.entry.table.now row.entry.at)) from (join_of result) }
    {
        let s = self.row_starts(row);
        for start in from.max(s.start)..s.end {
            if let Some(p) = self.row_at(row, start) {
                return Some(p);
            }
        }
        None
    }
}

// Whether the row can have this range with these daughters.
pub(crate) fn row_fits(row: Option<Row>, words: &[u16], d: Daughters, r: Range) -> bool
    ensures { Decides (Has words.now d (symbols_of row.entry) (range_of r)) result }
{
    match row {
        None => r == Range::NONE,
        Some(row) => Sources { words, chosen: d }.row_from(row, r.from) == Some(r),
    }
}

// The first range that the row can have from a start on.
pub fn row_next(row: Option<Row>, words: &[u16], d: Daughters, from: usize) -> Option<Range>
    ensures { Next start_of (Has words.now d (symbols_of row.entry)) from (join_of result) }
{
    match row {
        None => (from == 0).then_some(Range::NONE),
        Some(row) => Sources { words, chosen: d }.place_next(row, from),
    }
}
