// Where the daughters of an item are looked for, one after another, and whether a rule gives the item from daughters that are all chosen.
ghost use Rattle.std.specs.Prelude.{◌≡◌, ◌+◌, ◌<◌, ◌^◌};
ghost use Rattle.phrase.specs.Phrase.{Decides};
ghost use Rattle.chosen.specs.Walk as spec;
ghost use Rattle.chosen.specs.Walk.{Only};
ghost use Rattle.chosen.specs.Quest.{Seated, Seeks, Onward, Leads, none_chosen, one_more};

use crate::quest::Quest;
use hint::{Want, Wants, meets, wants_of};
use phrase::{Daughters, fits};
use search::{Spots, none_of, spots_for, top, unpack, with};

// The daughters that are chosen, which daughter is looked for next, from 0, the places where, and what is asked of it.
#[derive(Clone, Copy)]
pub(crate) struct Look {
    pub chosen: Daughters,
    pub turn: usize,
    pub spots: Spots,
    pub wants: Wants,
}

// The first so many places, with nothing asked.
fn only(chosen: Daughters, turn: usize, end: usize) -> Look
    ensures { Only chosen turn end result }
{
    Look {
        chosen,
        turn,
        spots: Spots {
            lo: 0,
            gap: end,
            resume: end,
            hi: end,
        },
        wants: Wants {
            low: 0,
            high: 2047,
            one: Want::NOTHING,
            two: Want::NOTHING,
            three: Want::NOTHING,
        },
    }
}

// The daughters with a known item as daughter k, where the rule has such a daughter.
fn taken(d: Daughters, k: usize, code: u64) -> Daughters
    requires { code < 2 ^ 60 }
    ensures { result ≡ spec.taken d k code }
{
    if k < d.count {
        with(d, k, unpack(code))
    } else {
        d
    }
}

impl Quest<'_> {
    // Where daughter k is looked for: place 0 alone where the rule has no such daughter.
    fn look_for(&self, d: Daughters, k: usize) -> Look
        requires { Seated self.now d k × (k < 3) }
        ensures { Seeks self.now d k result }
    {
        if d.count <= k {
            return only(d, k, 1);
        }
        let wants = wants_of(self.rule, self.words, d, self.goal, k);
        Look {
            chosen: d,
            turn: k,
            spots: spots_for(self.rule, k, wants, self.known),
            wants,
        }
    }

    // Where the first daughter is looked for: nowhere if the rule is of another category than the goal.
    pub(crate) fn begin(&self) -> Look
        ensures { Seeks self.now (none_chosen self.now) 0 result }
    {
        let d = none_of(self.rule.rank());
        if self.rule.category() == self.goal.category {
            self.look_for(d, 0)
        } else {
            only(d, 0, 0)
        }
    }

    // Where the next daughter is looked for, with the known item at a place as this one: nowhere if this one is not as asked.
    pub(crate) fn onward(&self, l: Look, place: usize) -> Look
        requires { Onward self.now l place × (l.turn < 2) }
        ensures { Seeks self.now (one_more self.now l place) (l.turn + 1) result }
    {
        let code = self.known[place];
        let d = taken(l.chosen, l.turn, code);
        if meets(l.wants, code) {
            self.look_for(d, l.turn + 1)
        } else {
            only(d, l.turn + 1, 0)
        }
    }

    // Does the rule give the goal, with the right heights, with the known item at a place as the last daughter?
    pub(crate) fn gives(&self, l: Look, place: usize) -> bool
        requires { Onward self.now l place × (l.turn ≡ 2) }
        ensures { Decides (Leads self.now (one_more self.now l place)) result }
    {
        let code = self.known[place];
        meets(l.wants, code) && self.all_chosen(taken(l.chosen, l.turn, code))
    }

    // The same where all daughters are chosen.
    fn all_chosen(&self, d: Daughters) -> bool
        requires { Seated self.now d 3 }
        ensures { Decides (Leads self.now d) result }
    {
        top(d) == self.goal.height - 1 && fits(self.rule, self.words, d, self.goal)
    }
}
