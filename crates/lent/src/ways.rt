// Whether a record is what its function and its daughters can give: their places, the item, the height.
ghost use Rattle.std.specs.Prelude.{◌≡◌, ℕ, ◌<◌};
ghost use Rattle.meaning.specs.Chart as spec;
ghost use Rattle.phrase.specs.Phrase.{Decides};
ghost use Rattle.lent.specs.Lent.{knowns_of, Placed, WayAt};

use crate::records::Record;
use phrase::{Daughters, fits};
use rules::Rule;

// The greatest height of the daughters; 0 without daughters.
// Kept beside search's `top`, which takes all three: there a daughter that is not chosen has height 0.
fn tallest(d: Daughters) -> u16
    ensures { result ≡ spec.tallest (knowns_of d) }
{
    let heights = [d.one.height, d.two.height, d.three.height];
    heights[..d.count.min(3)].iter().copied().max().unwrap_or(0)
}

impl Record<'_> {
    // Whether place k of the record is below the count if one of the first rank, and else 0.
    fn is_placed(self, count: usize, rank: usize, k: usize) -> bool
        requires { k < 3 }
        ensures { Decides (Placed self.entry.chart.now count self.entry.at rank k) result }
    {
        let place = usize::from(self.number(9 + k));
        if k < rank { place < count } else { place == 0 }
    }

    // Whether the three places of the record are as they must be.
    fn are_placed(self, count: usize, rank: usize) -> bool
        ensures { Decides ((k : ℕ) → k < 3 → Placed self.entry.chart.now count self.entry.at rank k) result }
    {
        (0..3).all(|k| self.is_placed(count, rank, k))
    }

    // Whether the record is a way by the rule that has its function number.
    pub(crate) fn is_way(self, rule: Rule, words: &[u16], count: usize) -> bool
        ensures { Decides (WayAt rule.entry.table.now words.now self.entry.chart.now count rule.entry.at self.entry.at) result }
    {
        let rank = rule.rank();
        if !self.are_placed(count, rank) {
            return false;
        }
        let item = self.stated();
        let d = self.daughters(rank);
        fits(rule, words, d, item) && usize::from(item.height) == 1 + usize::from(tallest(d))
    }
}
