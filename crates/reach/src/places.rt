// Sets of places as the bits of a number, and one turn of a row for each kind of symbol.
ghost use Rattle.std.specs.Prelude.{◌≡◌, true, false, ◌<◌, ◌≤◌, length};
ghost use Rattle.phrase.specs.Phrase.{range_of, Decides};
ghost use Rattle.reach.specs.Bits.{Bit, Single, Both, Minus, Next, Lent};
ghost use Rattle.reach.specs.Reach as spec;
ghost use Rattle.reach.specs.Reach.{Known, Turns, Occurs, Here, After, OneWord, Exactly, Union, MayBe};

use crate::setting::Setting;
use phrase::{Range, is_range};

// Where a row may be: bit e - 1 for the end e; and whether it may have used no word yet.
#[derive(Clone, Copy)]
pub(crate) struct Places {
    pub ends: u64,
    pub still: bool,
}

// The set of just one number.
pub(crate) fn only(i: usize) -> u64
    requires { i < 64 }
    ensures { Single i result }
{
    1 << i
}

// Both sets.
pub(crate) fn both(a: u64, b: u64) -> u64
    ensures { Both a b result }
{
    a | b
}

// What is in a and not in b.
pub fn minus(a: u64, b: u64) -> u64
    ensures { Minus a b result }
{
    a ^ (a & b)
}

// What the set b shares with the numbers after those of a.
fn next(a: u64, b: u64) -> u64
    ensures { Next a b result }
{
    (a << 1) & b
}

// Whether a number is in the set.
pub(crate) fn has(set: u64, i: usize) -> bool
    requires { i < 64 }
    ensures { Decides (Bit set i) result }
{
    (set >> i) % 2 == 1
}

// The set that is lent at a place, if it is asked for; nothing past the end.
fn lent(sets: &[u64], at: usize, asked: bool) -> u64
    ensures { Lent sets.now at asked result }
{
    if asked {
        sets.get(at).copied().unwrap_or(0)
    } else {
        0
    }
}

// The places where the sentence has the word.
fn occurs(words: &[u16], w: u16) -> u64
    requires { length words.now ≤ 64 }
    ensures { Occurs words.now w result }
{
    let mut set = 0;
    for (i, word) in words.iter().enumerate() {
        if *word == w {
            set = both(set, only(i));
        }
    }
    set
}

// The ends from each place of the set, as lent from base on.
fn union_of(ends: &[u64], base: usize, from: u64) -> u64
    requires { base ≤ 4194304 }
    ensures { Union ends.now base from result }
{
    let mut set = 0;
    let mut rest = from;
    for p in 1..64 {
        if rest == 0 {
            return set;
        }
        set = both(set, lent(ends, base + p, rest % 2 == 1));
        rest /= 2;
    }
    set
}

// The numbers after those of a set at which the sentence has the word.
fn after(on: Setting, w: u16, set: u64) -> u64
    ensures { After on.entry.words.now w set result }
{
    if set == 0 {
        return 0;
    }
    next(set, occurs(on.words, w))
}

impl Places {
    // Where a row is before its first symbol.
    pub(crate) const FIRST: Places = Places {
        ends: 0,
        still: true,
    };

    // The row has got to one of the ends, and has used a word.
    fn moved(ends: u64) -> Places
        ensures { result ≡ record { ends = ends; still = false } }
    {
        Places { ends, still: false }
    }

    // Whether the row can have nothing from here.
    pub(crate) fn is_nowhere(self) -> bool
        ensures { result ≡ true → spec.Nowhere self }
    {
        !self.still && self.ends == 0
    }

    // Whether the row may be at a place.
    fn may_be(self, start: usize, at: usize) -> bool
        requires { at ≤ 64 }
        ensures { Decides (MayBe self start at) result }
    {
        self.still && at == start || at != 0 && has(self.ends, at - 1)
    }

    // The places after a word.
    pub(crate) fn over_word(self, on: Setting, w: u16) -> Places
        ensures { Turns (OneWord on.entry.words.now w) on.entry.start self result }
    {
        let next = after(on, w, self.ends);
        if self.still && on.words.get(on.start) == Some(&w) {
            return Places::moved(both(next, only(on.start)));
        }
        Places::moved(next)
    }

    // The places after a part of a chosen daughter.
    pub(crate) fn over_part(self, on: Setting, q: Range) -> Places
        ensures { Turns (Exactly on.entry.words.now (range_of q)) on.entry.start self result }
    {
        if !is_range(on.words, q) {
            return Places::moved(0);
        }
        if q.to == 0 {
            return self;
        }
        if self.may_be(on.start, q.from) {
            return Places::moved(only(q.to - 1));
        }
        Places::moved(0)
    }

    // The places after a daughter of one part that may be any known one of its category.
    pub(crate) fn over_free(self, on: Setting, category: u16) -> Places
        requires { (1 ≤ category) × (category ≤ 64) }
        ensures { Turns (Known on.entry.ends.now category) on.entry.start self result }
    {
        let c = usize::from(category);
        let base = c * 64;
        let set = both(
            union_of(on.ends, base, self.ends),
            lent(on.ends, base + on.start, self.still),
        );
        if has(lent(on.ends, 0, true), c - 1) {
            return Places {
                ends: both(set, self.ends),
                still: self.still,
            };
        }
        Places::moved(set)
    }
}
