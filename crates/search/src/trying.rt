// What one rule gives with daughters of which some are chosen and the others are known items.
ghost use Rattle.std.specs.Prelude.{◌≡◌, ◌+◌, ◌-◌, ◌*◌, ◌<◌, ◌≤◌, ◌^◌, max};
ghost use Rattle.meaning.specs.Table.{rank_of};
ghost use Rattle.store.specs.Set.{Sorted};
ghost use Rattle.phrase.specs.Phrase.{range_of};
ghost use Rattle.search.specs.Level.{Ready};
ghost use Rattle.search.specs.Tried as spec;
ghost use Rattle.search.specs.Tried.{coded, put, Short, SpotsFor, blank_item, none_of};
ghost use Rattle.search.specs.Task.{Trying, Trial, Tried, Ranges, none_chosen, Fills};

use crate::spots::{Spots, spots_of};
use crate::task::Task;
use hint::{Wants, meets, reach_of, turn_of, wants_of};
use phrase::{Daughters, Item, Range, kinds, row_next, row_of};
use rules::Rule;

// A code is so many times its key, and its height.
const HEIGHTS: u64 = 2048;

// A key is so many times the digits before its last one, and that.
const DIGITS: u64 = 128;

// The item of a code.
// Kept: the digits by name: it takes all seven apart, into another thing than hint's `parts_meet` and reach's `first_of` do.
pub fn unpack(c: u64) -> Item
    requires { c < 2 ^ 60 }
    ensures { result ≡ coded c }
{
    let k5 = c / HEIGHTS;
    let k4 = k5 / DIGITS;
    let k3 = k4 / DIGITS;
    let k2 = k3 / DIGITS;
    let k1 = k2 / DIGITS;
    let k0 = k1 / DIGITS;
    Item {
        category: (k0 / DIGITS) as u16,
        height: (c % HEIGHTS) as u16,
        ends: [
            (k0 % DIGITS) as u16,
            (k1 % DIGITS) as u16,
            (k2 % DIGITS) as u16,
            (k3 % DIGITS) as u16,
            (k4 % DIGITS) as u16,
            (k5 % DIGITS) as u16,
        ],
    }
}

// The daughters with x as daughter k.
// Kept: here and in `top` three fields by name, as `Daughters` has them.
pub fn with(mut d: Daughters, k: usize, x: Item) -> Daughters
    ensures { result ≡ put d k x }
{
    match k {
        0 => d.one = x,
        1 => d.two = x,
        _ => d.three = x,
    }
    d
}

// The greatest height of the chosen daughters.
pub fn top(d: Daughters) -> u16
    ensures { result ≡ max d.one.height (max d.two.height d.three.height) }
{
    d.one.height.max(d.two.height.max(d.three.height))
}

// No item, at a height.
pub(crate) fn blank_item(height: u16) -> Item
    ensures { result ≡ blank_item height }
{
    Item {
        category: 0,
        height,
        ends: [0; 6],
    }
}

// So many daughters, none of them chosen.
pub fn none_of(count: usize) -> Daughters
    ensures { result ≡ none_of count }
{
    let none = blank_item(0);
    Daughters {
        count,
        one: none,
        two: none,
        three: none,
    }
}

// Where the known items stand that can be daughter k, as it is asked.
pub fn spots_for(rule: Rule, k: usize, w: Wants, known: &[u64]) -> Spots
    requires { (k < rank_of rule.table.now rule.at) × Sorted known.now }
    ensures { SpotsFor rule.entry.table.now rule.entry.at k w known.now result }
{
    spots_of(known, reach_of(rule.wanted(k), w))
}

// The digits of a key with those of a range after them.
fn then_range(key: u64, r: Range) -> u64
    requires { (key < 2 ^ 35) × Short (range_of r) }
    ensures { result ≡ spec.then_range key (range_of r) }
{
    (key * DIGITS + r.from as u64) * DIGITS + r.to as u64
}

impl Task<'_> {
    // Enters a key at the goal's height, unless it is known.
    // Kept: here and below a lent slice and a count, as `store::put` takes them: `Filled`, whose meaning stays, speaks of both.
    fn enter(&self, fresh: &mut [u64], n: usize, key: u64) -> Option<usize>
        requires ready { Ready fresh.old n }
        requires key { key < 2 ^ 53 }
        ensures { Fills self.now (λ y. y ≡ key) fresh.old n fresh.new result }
    {
        if store::has(self.known, key) {
            return Some(n);
        }
        store::put(fresh, n, key * HEIGHTS + u64::from(self.goal.height))
    }

    // Enters the items whose keys begin so, and go on with each range that the rule's rows from i on can have. A range is two digits of a key,
    // so one of 16384.
    fn offer_rows(
        &self,
        d: Daughters,
        i: usize,
        key: u64,
        fresh: &mut [u64],
        n: usize,
    ) -> Option<usize>
        requires ready { Ready fresh.old n }
        requires begins { (i ≤ 3) × ((key + 1) * 16384 ^ (3 - i) ≤ 2 ^ 49) }
        ensures { Fills self.now (Ranges self.now d (3 - i) key) fresh.old n fresh.new result }
    {
        if i == 3 {
            return self.enter(fresh, n, key);
        }
        let row = row_of(self.rule, i);
        let mut m = n;
        let mut from = 0;
        // Kept: the range that was found says where the next one is looked for.
        while let Some(r) = row_next(row, self.words, d, from) {
            m = self.offer_rows(d, i + 1, then_range(key, r), fresh, m)?;
            from = r.from + 1;
        }
        Some(m)
    }

    // Enters what the rule gives with these daughters, all of them chosen.
    fn offer(&self, d: Daughters, fresh: &mut [u64], n: usize) -> Option<usize>
        requires ready { Ready fresh.old n }
        requires trying { Trying self.now d 0 }
        ensures { Fills self.now (Tried self.now d) fresh.old n fresh.new result }
    {
        if top(d) == self.goal.height - 1 && kinds(self.rule, d) {
            return self.offer_rows(d, 0, u64::from(self.rule.category()), fresh, n);
        }
        Some(n)
    }

    // Enters what the rule gives with a known item as daughter k, if it is as asked; left daughters more are not chosen.
    #[cycle(extend_try_code)]
    fn try_code(
        &self,
        d: Daughters,
        k: usize,
        left: usize,
        w: Wants,
        c: u64,
        fresh: &mut [u64],
        n: usize,
    ) -> Option<usize>
        requires ready { Ready fresh.old n }
        requires trial { Trial self.now d k left w c }
        ensures { Fills self.now (Tried self.now (put d k (coded c))) fresh.old n fresh.new result }
    {
        if !meets(w, c) {
            return Some(n);
        }
        let e = with(d, k, unpack(c));
        if left == 0 {
            self.offer(e, fresh, n)
        } else {
            self.extend(e, left, fresh, n)
        }
    }

    // Enters what the rule gives with these daughters, and known ones where left of them are not chosen yet.
    #[cycle(extend_try_code)]
    fn extend(&self, d: Daughters, left: usize, fresh: &mut [u64], n: usize) -> Option<usize>
        requires ready { Ready fresh.old n }
        requires trying { Trying self.now d left }
        ensures { Fills self.now (Tried self.now d) fresh.old n fresh.new result }
    {
        let Some(k) = turn_of(self.rule, d) else {
            return self.offer(d, fresh, n);
        };
        let w = wants_of(self.rule, self.words, d, self.goal, k);
        let s = spots_for(self.rule, k, w, self.known);
        let mut m = n;
        let mut i = s.first();
        // Kept: a step leaves the gap between the two parts of the spots out, so it is no count.
        while i < s.hi {
            m = self.try_code(d, k, left - 1, w, self.known[i], fresh, m)?;
            i = s.next(i);
        }
        Some(m)
    }

    // Enters what the rule gives from known items.
    pub(crate) fn combine(&self, fresh: &mut [u64], n: usize) -> Option<usize>
        requires ready { Ready fresh.old n }
        ensures { Fills self.now (Tried self.now (none_chosen self.now)) fresh.old n fresh.new result }
    {
        let rank = self.rule.rank();
        self.extend(none_of(rank), rank, fresh, n)
    }
}
