// What a rule gives from its daughters: whether they are of its kinds, and whether it gives an item.
ghost use Rattle.std.specs.Prelude.{◌≡◌, get_or};
ghost use Rattle.meaning.specs.Range as range;
ghost use Rattle.meaning.specs.Giving.{categories};
ghost use Rattle.meaning.specs.Decode.{rule_at};
ghost use Rattle.phrase.specs.Phrase.{item_of, items_of, row_of, Decides, Has, GivesAt};

use crate::items::{Daughters, Item, kind_at, range_at};
use crate::rows::{row_fits, row_of};
use rules::Rule;

// Whether daughter k is of the category that the rule wants.
fn kind_fits(rule: Rule, d: Daughters, k: usize) -> bool
    ensures { Decides (get_or (categories (items_of d)) k 0 ≡ get_or (rule_at rule.entry.table.now rule.entry.at).daughters k 0) result }
{
    kind_at(d, k) == rule.wanted(k)
}

// Whether the daughters are of the categories that the rule wants.
pub fn kinds(rule: Rule, d: Daughters) -> bool
    ensures { Decides (categories (items_of d) ≡ (rule_at rule.entry.table.now rule.entry.at).daughters) result }
{
    d.count.min(3) == rule.rank() && (0..3).all(|k| kind_fits(rule, d, k))
}

// Whether row i of the rule can have the item's range i.
fn range_fits(rule: Rule, words: &[u16], d: Daughters, x: Item, i: usize) -> bool
    ensures { Decides (Has words.now d (row_of rule.entry.table.now rule.entry.at i) (range.at (item_of x) i)) result }
{
    row_fits(row_of(rule, i), words, d, range_at(x, i))
}

// Whether the item is one of those that the rule gives with these daughters.
// Kept: words and daughters side by side, here and in `row_next`, as `Gives` and `Has`, whose meaning stays, have them: a struct would be built at each call.
pub fn fits(rule: Rule, words: &[u16], d: Daughters, x: Item) -> bool
    ensures { Decides (GivesAt rule.entry.table.now words.now rule.entry.at d x) result }
{
    x.category == rule.category()
        && kinds(rule, d)
        && (0..3).all(|i| range_fits(rule, words, d, x, i))
}
