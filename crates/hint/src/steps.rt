// How what is known of a place moves over a symbol of a row, on from the row's left side, or back from its right side.
ghost use Rattle.std.specs.Prelude.{◌≡◌, [], ◌∷◌, ℕ, ◌<◌};
ghost use Rattle.meaning.specs.Range as range;
ghost use Rattle.phrase.specs.Phrase.{range_of};
ghost use Rattle.rules.specs.Symbols.{symbol_of};
ghost use Rattle.hint.specs.State as spec;
ghost use Rattle.hint.specs.State.{Moves, Knows, MovesOver};

use crate::Place;
use crate::order::is_chosen;
use phrase::{Daughters, Range, held};
use rules::Symbol;

// The side of a row that a walk over its symbols begins at.
// What is marked inline here and in `passes` is so marked that the walk from each side is compiled on its own.
#[derive(Clone, Copy)]
pub(crate) enum Side {
    Left,
    Right,
}

impl Side {
    // The end of a range that the walk comes to first.
    #[inline(always)]
    pub(crate) fn near(self, r: Range) -> usize
        ensures { result ≡ spec.near self (range_of r) }
    {
        match self {
            Side::Left => r.from,
            Side::Right => r.to,
        }
    }

    // The end of a range that it comes to last.
    #[inline(always)]
    fn far(self, r: Range) -> usize
        ensures { result ≡ spec.far self (range_of r) }
    {
        match self {
            Side::Left => r.to,
            Side::Right => r.from,
        }
    }

    // The number, from the left, of the symbol that it comes to after i others of n.
    #[inline(always)]
    pub(crate) fn index(self, i: usize, n: usize) -> usize
        requires { i < n }
        ensures { result ≡ spec.index self i n }
    {
        match self {
            Side::Left => i,
            Side::Right => n - 1 - i,
        }
    }
}

// What is known after a word, from what is known before it.
fn over_word(side: Side, words: &[u16], w: u16, s: Place) -> Place
    ensures { (p : range.Range) → range.Spans words.now p (w ∷ []) → Moves p (spec.near side p) (spec.far side p) s result }
{
    let Place::At(e) = s else {
        return s;
    };
    match side {
        Side::Left if words.get(e) == Some(&w) => Place::At(e + 1),
        Side::Right if e > 0 && words.get(e - 1) == Some(&w) => Place::At(e - 1),
        _ => Place::Nowhere,
    }
}

// What is known after constituent c of daughter k, from what is known before it.
fn over_part(side: Side, d: Daughters, k: usize, c: usize, s: Place) -> Place
    ensures { (e : ℕ → ℕ → range.Range) → Knows d e → Moves (e k c) (spec.near side (e k c)) (spec.far side (e k c)) s result }
{
    if !is_chosen(d, k) {
        return Place::Any;
    }
    let p = held(d, k, c);
    if p.to == 0 { s } else { Place::At(side.far(p)) }
}

// The words of the sentence, the daughters that are chosen, and the one that is asked for, from 0.
#[derive(Clone, Copy)]
pub(crate) struct Asking<'a> {
    pub words: &'a [u16],
    pub chosen: Daughters,
    pub turn: usize,
}

impl Asking<'_> {
    // What is known after a symbol, from what is known before it.
    #[inline(always)]
    pub(crate) fn over(self, side: Side, x: Symbol, s: Place) -> Place
        ensures { MovesOver side self.entry.words.now self.entry.chosen (symbol_of x) s result }
    {
        match x {
            Symbol::Word(w) => over_word(side, self.words, w, s),
            Symbol::Part(k, c) => over_part(side, self.chosen, k, c, s),
        }
    }
}
