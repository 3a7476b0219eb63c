// Items and daughters: their ranges and categories, looked up so that what is not there is empty.
ghost use Rattle.std.specs.Prelude.{◌≡◌, ◌<◌, get_or};
ghost use Rattle.meaning.specs.Range as range;
ghost use Rattle.meaning.specs.Range.{nothing};
ghost use Rattle.meaning.specs.Giving.{categories};
ghost use Rattle.phrase.specs.Phrase.{range_of, item_of, items_of, daughter_of, held_of, item_from};

use crate::ranges::Range;

// A category and its ranges as start and end, with the height of its lowest tree.
// Kept: document 01 names this form, a struct with the range ends in one array, by value.
#[derive(Clone, Copy)]
pub struct Item {
    pub category: u16,
    pub height: u16,
    pub ends: [u16; 6],
}

// The first count of three items.
// Kept: a count, since there is no heap; and a field for each daughter, as `items_of`, `seat`, `put` and `Partial`, whose meaning stays, have them:
// an array is a list of any length in a clause, so each law over daughters would have to say that there are three.
#[derive(Clone, Copy)]
pub struct Daughters {
    pub count: usize,
    pub one: Item,
    pub two: Item,
    pub three: Item,
}

// The range with these ends.
fn ends_of(from: u16, to: u16) -> Range
    ensures { (result.from ≡ from) × (result.to ≡ to) × (result.from < 65536) }
{
    Range {
        from: usize::from(from),
        to: usize::from(to),
    }
}

// Range i of an item, from 0; the empty one past the third.
pub fn range_at(x: Item, i: usize) -> Range
    ensures { (range_of result ≡ range.at (item_of x) i) × (result.from < 65536) }
{
    if i < 3 {
        ends_of(x.ends[2 * i], x.ends[2 * i + 1])
    } else {
        Range::NONE
    }
}

// Daughter k, from 0, if there is one.
// Kept: a match, since `Daughters` has a field for each.
fn daughter(d: Daughters, k: usize) -> Option<Item>
    ensures { daughter_of result ≡ get_or (items_of d) k nothing }
{
    if d.count <= k {
        return None;
    }
    match k {
        0 => Some(d.one),
        1 => Some(d.two),
        2 => Some(d.three),
        _ => None,
    }
}

// Constituent c of daughter k, both from 0; the empty range where there is none.
pub fn held(d: Daughters, k: usize, c: usize) -> Range
    ensures { (range_of result ≡ held_of d k c) × (result.from < 65536) }
{
    daughter(d, k).map_or(Range::NONE, |x| range_at(x, c))
}

// The category of daughter k, from 0; 0 where there is none.
// Kept: 0, as `Rule::wanted` answers where no daughter is wanted, so that the two compare (`Gives` may not change).
pub(crate) fn kind_at(d: Daughters, k: usize) -> u16
    ensures { result ≡ get_or (categories (items_of d)) k 0 }
{
    daughter(d, k).map_or(0, |x| x.category)
}

// The item of a category with these ranges.
pub fn item_of(category: u16, height: u16, p: Range, q: Range, r: Range) -> Item
    requires { (p.from < 65536) × (p.to < 65536) × (q.from < 65536) × (q.to < 65536) × (r.from < 65536) × (r.to < 65536) }
    ensures { (item_of result ≡ item_from category (range_of p, (range_of q, range_of r))) × (result.height ≡ height) }
{
    Item {
        category,
        height,
        ends: [
            p.from as u16,
            p.to as u16,
            q.from as u16,
            q.to as u16,
            r.from as u16,
            r.to as u16,
        ],
    }
}
