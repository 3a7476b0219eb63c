// An item that is looked for among what a rule gives from known items, of which it is one.
ghost use Rattle.std.specs.Prelude.{◌≡◌, ℕ, ◌<◌, ◌≤◌, ◌^◌, length};
ghost use mathlib.Core.List.{Memᴰ};
ghost use Rattle.store.specs.Set.{Sorted};
ghost use Rattle.store.specs.Code.{known_of};
ghost use Rattle.search.specs.Ordering.{Sorted_prop};

use phrase::Item;
use rules::Rule;

// A rule, a sentence, the known items, and the goal, which is the item that is looked for.
// Kept beside search's `Task`: a task wants any item of a height, a quest this one. Three facts of the known items are in both; a type for these
// three would be read through one more field by every law of either.
#[derive(Clone, Copy)]
pub(crate) struct Quest<'a> {
    pub rule: Rule<'a>,
    pub words: &'a [u16],
    pub known: &'a [u64],
    pub goal: Item,
    // The known items are a set, some and at most 2000, and each is a code of an item that has a category.
    ghost sorted: { Sorted known.now } by { Sorted_prop known.now },
    ghost some: { 0 < length known.now },
    ghost most: { length known.now ≤ 2000 },
    ghost codes: { (c : ℕ) → Memᴰ c known.now → (1 ≤ (known_of c).item.category) × (c < 2 ^ 60) },
    // The goal has a height and a category.
    ghost high: { 1 ≤ goal.height },
    ghost named: { goal.category ≡ 0 → ⊥ },
}
