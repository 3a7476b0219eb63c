// A row walked from its left side, and back from its right side: what is asked of the parts of a daughter on the way.
ghost use Rattle.meaning.specs.Range as range;
ghost use Rattle.meaning.specs.Decode.{row_at};
ghost use Rattle.phrase.specs.Phrase.{row_of};
ghost use Rattle.rules.specs.Symbols.{symbol_of};
ghost use Rattle.hint.specs.State.{SideAs, Sharper, Sharpens, PartAs, Ways, Wanted};

use crate::steps::{Asking, Side};
use crate::{Place, Want, Wants};
use phrase::{Item, range_at, row_of};
use rules::{Row, Rule, Symbol};

// Wants besides that a part starts, or ends, at a place.
#[inline(always)]
fn sharpened(side: Side, place: Place, w: Want) -> Want
    ensures { Sharpens side place w result }
{
    match side {
        Side::Left => Want { from: place, ..w },
        Side::Right => Want { to: place, ..w },
    }
}

// Asks besides that a symbol, if it is a part of daughter k, starts, or ends, at a place; past the third part there is nothing to ask.
// Kept: a match, since `Wants` has a field for each part.
#[inline(always)]
fn ask(side: Side, k: usize, x: Symbol, place: Place, w: Wants) -> Wants
    ensures { Sharper (PartAs side k (symbol_of x) place) w result }
{
    match x {
        Symbol::Part(j, 0) if j == k => Wants {
            one: sharpened(side, place, w.one),
            ..w
        },
        Symbol::Part(j, 1) if j == k => Wants {
            two: sharpened(side, place, w.two),
            ..w
        },
        Symbol::Part(j, 2) if j == k => Wants {
            three: sharpened(side, place, w.three),
            ..w
        },
        _ => w,
    }
}

// What is known of a side of row i, where an item is wanted; its category is 0 where none is.
// Kept: a number for no item, since the goal's height counts even then (Does in specs/Hint.antt).
#[inline(always)]
fn goal_side(side: Side, goal: Item, i: usize) -> Place
    ensures { (r : range.Range) → Wanted goal i r → SideAs side result r }
{
    if goal.category == 0 {
        return Place::Any;
    }
    let r = range_at(goal, i);
    if r.to == 0 {
        return Place::Nowhere;
    }
    Place::At(side.near(r))
}

impl Asking<'_> {
    // Asks besides where the daughter's parts in a row must start, or end, from what is known of the row's side.
    #[inline(always)]
    fn walk(self, side: Side, row: Row, s: Place, w: Wants) -> Wants
        ensures { Sharper (Ways self.entry.words.now self.entry.chosen self.entry.turn (row_at row.entry.table.now row.entry.at) (SideAs side s)) w result }
    {
        let n = row.len();
        let mut here = s;
        let mut r = w;
        for i in 0..n {
            let x = row.symbol(side.index(i, n));
            r = ask(side, self.turn, x, here, r);
            here = self.over(side, x, here);
        }
        r
    }

    // Asks besides where the daughter's parts in row i of the rule must start and end.
    pub(crate) fn ask_row(self, rule: Rule, i: usize, goal: Item, w: Wants) -> Wants
        ensures { Sharper (Ways self.entry.words.now self.entry.chosen self.entry.turn (row_of rule.entry.table.now rule.entry.at i) (Wanted goal i)) w result }
    {
        let Some(row) = row_of(rule, i) else {
            return w;
        };
        let from_left = self.walk(Side::Left, row, goal_side(Side::Left, goal, i), w);
        self.walk(Side::Right, row, goal_side(Side::Right, goal, i), from_left)
    }
}
