// A symbol of a row, as its three bytes have it.
ghost use Rattle.std.specs.Prelude.{◌≡◌, ◌+◌, ◌*◌, ◌^◌, ◌<◌};
ghost use Rattle.meaning.specs.Table.{byte};
ghost use Rattle.meaning.specs.Decode.{symbol_at};
ghost use Rattle.rules.specs.Symbols.{symbol_of, IsSmall};

use crate::rule::Row;
use fields::{byte_at, number_at};

// A word, or a daughter and a constituent of it, both from 0.
#[derive(Clone, Copy, PartialEq, Eq)]
pub enum Symbol {
    Word(u16),
    Part(usize, usize),
}

// The symbol at a place.
#[inline]
pub fn symbol_at(table: &[u8], at: usize) -> Symbol
    requires { at + 1 < 2 ^ 64 }
    ensures symbol { symbol_of result ≡ symbol_at table.now at }
    ensures small { IsSmall result }
{
    let kind = usize::from(byte_at(table, at));
    let number = number_at(table, at + 1);
    if kind == 0 {
        return Symbol::Word(number);
    }
    Symbol::Part(kind - 1, usize::from(number).saturating_sub(1))
}

impl Row<'_> {
    // Symbol i of the row, from 0.
    // Kept: symbols are asked for by number, not by an iterator, since one loop of `hint` walks a row from either end (`Side::index`).
    #[inline]
    #[tactic(auto, using(meaning::proofs::Places::row_is))]
    pub fn symbol(self, i: usize) -> Symbol
        requires { i < byte self.table.now self.at }
        ensures { symbol_of result ≡ symbol_at self.entry.table.now (self.entry.at + 1 + 3 * i) }
    {
        symbol_at(self.table, self.at + 1 + 3 * i)
    }
}
