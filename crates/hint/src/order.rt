// The order in which a rule's daughters are chosen: as the rows name their first constituents, so that one part follows another that is known.
ghost use Rattle.std.specs.Prelude.{◌≡◌, ◌<◌, MatchBool};
ghost use Rattle.phrase.specs.Phrase.{Decides};
ghost use Rattle.hint.specs.Hint as spec;
ghost use Rattle.hint.specs.Hint.{Open, Partial, Turns};
ghost use Rattle.hint.specs.State.{Named};

use phrase::{Daughters, Item, row_of};
use rules::{Row, Rule, Symbol};

// Daughter k, from 0; the third past it.
// Kept: a match, since `Daughters` has a field for each.
pub(crate) fn seat(d: Daughters, k: usize) -> Item
    ensures { result ≡ spec.seat d k }
{
    match k {
        0 => d.one,
        1 => d.two,
        _ => d.three,
    }
}

// Whether daughter k is chosen.
// Kept: one that is not has category 0, as Open and Partial say (specs/Hint.antt), so that daughters stay plain items.
pub(crate) fn is_chosen(d: Daughters, k: usize) -> bool
    ensures { MatchBool result (Open d k → ⊥) (Open d k) }
{
    seat(d, k).category != 0
}

// Whether daughter k is there and not chosen yet.
fn is_open(d: Daughters, k: usize) -> bool
    ensures { Decides ((k < d.count) × Open d k) result }
{
    k < d.count && !is_chosen(d, k)
}

// The daughter that a row names next, of those that are not chosen: by its first constituent.
fn turn_in(row: Row, d: Daughters) -> Option<usize>
    ensures { Named d result }
{
    for i in 0..row.len() {
        if let Symbol::Part(k, 0) = row.symbol(i)
            && is_open(d, k)
        {
            return Some(k);
        }
    }
    None
}

// The daughter that row i of the rule names next; none past the last row.
fn turn_at(rule: Rule, i: usize, d: Daughters) -> Option<usize>
    ensures { Named d result }
{
    turn_in(row_of(rule, i)?, d)
}

// The daughter to be chosen next: the one that the rows name next, or the first that no row names; none where all are chosen.
// Kept: a loop, since with `find_map` the goal `returns` stays open: std has a law that reads `find` over a range (first_from_Range), none for `find_map`.
pub fn turn_of(rule: Rule, d: Daughters) -> Option<usize>
    requires { Partial d }
    ensures { Turns d result }
{
    for i in 0..3 {
        if let Some(k) = turn_at(rule, i, d) {
            return Some(k);
        }
    }
    (0..3).find(|&k| is_open(d, k))
}
