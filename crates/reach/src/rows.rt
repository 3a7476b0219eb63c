// A row run from a start over sets of places.
ghost use Rattle.std.specs.Prelude.{◌≡◌, ◌<◌, ◌≤◌, length, MatchOption};
ghost use Rattle.meaning.specs.Decode.{row_at};
ghost use Rattle.rules.specs.Symbols.{symbol_of};
ghost use Rattle.reach.specs.Reach.{MayLent, Turns, Reaches, Asked, RowSet, free_of};

use crate::places::Places;
use crate::setting::Setting;
use phrase::{Daughters, held};
use rules::{Row, Symbol};

// The categories of three daughters of one part that may be any known ones; 0 for a daughter that is chosen.
// Kept: 0 for none, as `free_of` and `Asked` have it (specs/Reach.antt), whose meaning may not change.
#[derive(Clone, Copy)]
pub struct Free {
    pub categories: [u16; 3],
}

impl Free {
    // The category of daughter k, from 0, if she may be any known one.
    fn category(self, k: usize) -> Option<u16>
        ensures { MatchOption result (free_of self k ≡ 0) (λ a. (a ≡ free_of self k) × (1 ≤ a)) }
    {
        self.categories.get(k).copied().filter(|a| *a != 0)
    }
}

// The places after a symbol.
fn turn(x: Symbol, on: Setting, p: Places) -> Places
    ensures { Turns (MayLent on.entry.words.now on.entry.ends.now on.entry.free on.entry.chosen (symbol_of x)) on.entry.start p result }
{
    match x {
        Symbol::Word(w) => p.over_word(on, w),
        Symbol::Part(k, c) => match on.free.category(k) {
            Some(category) => p.over_free(on, category),
            None => p.over_part(on, held(on.chosen, k, c)),
        },
    }
}

// Where the row may end, and whether it may be empty.
fn row_ends(row: Row, on: Setting) -> Places
    ensures { Reaches (MayLent on.entry.words.now on.entry.ends.now on.entry.free on.entry.chosen) (row_at row.entry.table.now row.entry.at) on.entry.start result }
{
    let mut p = Places::FIRST;
    for i in 0..row.len() {
        if p.is_nowhere() {
            return p;
        }
        p = turn(row.symbol(i), on, p);
    }
    p
}

// All ranges that the row can have: the sets of its ends from each start, then whether it can be empty.
pub fn row_set(row: Row, words: &[u16], d: Daughters, f: Free, ends: &[u64], sets: &mut [u64])
    requires { Asked words.now ends.now f × (length words.now < length sets.old) }
    ensures { RowSet (MayLent words.now ends.now f d) (row_at row.entry.table.now row.entry.at) (length words.now) sets.new }
{
    let n = words.len();
    for (start, set) in sets[..n].iter_mut().enumerate() {
        // Kept: written out here and below, since the language has no `..on` for a struct with a ghost field, and a closure that makes one
        // would have to require its facts.
        let on = Setting {
            words,
            chosen: d,
            free: f,
            ends,
            start,
        };
        *set = row_ends(row, on).ends;
    }
    let on = Setting {
        words,
        chosen: d,
        free: f,
        ends,
        start: 0,
    };
    let first = row_ends(row, on);
    sets[n] = u64::from(first.still);
}
