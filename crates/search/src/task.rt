// What a rule is tried on: a sentence, an item of any category at a height, and the known items, of which its daughters are.
ghost use Rattle.std.specs.Prelude.{◌≡◌, ℕ, ◌<◌, ◌≤◌, ◌^◌, length};
ghost use mathlib.Core.List.{Memᴰ};
ghost use Rattle.store.specs.Set.{Sorted};
ghost use Rattle.store.specs.Code.{known_of};
ghost use Rattle.search.specs.Ordering.{Sorted_prop};

use phrase::Item;
use rules::Rule;

// A rule, a sentence, the known items, and the goal, which has the height of the items that are wanted.
#[derive(Clone, Copy)]
pub(crate) struct Task<'a> {
    pub rule: Rule<'a>,
    pub words: &'a [u16],
    pub known: &'a [u64],
    pub goal: Item,
    // A sentence has at most 64 words.
    ghost short: { length words.now ≤ 64 },
    // The known items are a set, at most 2000, and each is a code of an item that has a category.
    ghost sorted: { Sorted known.now } by { Sorted_prop known.now },
    ghost most: { length known.now ≤ 2000 },
    ghost codes: { (c : ℕ) → Memᴰ c known.now → (1 ≤ (known_of c).item.category) × (c < 2 ^ 60) },
    // No category is asked for, and a height that a level can have.
    ghost any: { goal.category ≡ 0 },
    ghost low: { 1 ≤ goal.height },
    ghost high: { goal.height ≤ 2001 },
}
