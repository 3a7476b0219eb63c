// Which places of a sorted set are walked: two parts of it, the first before the second.
ghost use Rattle.std.specs.Prelude.{◌+◌, ◌<◌, ◌≤◌};
ghost use Rattle.store.specs.Set.{Sorted};
ghost use Rattle.search.specs.Spots.{Finds, Ordered, Skips};

use hint::Reach;
use store::find;

// The places from lo up to gap, and from resume up to hi.
// Kept: four numbers, as hint's `Reach` has them, which `Ordered` puts in one order.
#[derive(Clone, Copy)]
pub struct Spots {
    pub lo: usize,
    pub gap: usize,
    pub resume: usize,
    pub hi: usize,
}

// Where the codes of two parts of them stand in a set.
pub fn spots_of(known: &[u64], reach: Reach) -> Spots
    requires { Sorted known.now × (reach.low ≤ reach.high) × (reach.high ≤ reach.low2) × (reach.low2 ≤ reach.high2) }
    ensures { Finds known.now reach.low reach.high reach.low2 reach.high2 result }
{
    Spots {
        lo: find(known, reach.low),
        gap: find(known, reach.high),
        resume: find(known, reach.low2),
        hi: find(known, reach.high2),
    }
}

impl Spots {
    // The first place that is walked.
    #[inline]
    pub fn first(self) -> usize
        requires { Ordered self }
        ensures { Skips self 0 result }
    {
        if self.lo == self.gap {
            self.resume
        } else {
            self.lo
        }
    }

    // The place that is walked after another.
    #[inline]
    pub fn next(self, i: usize) -> usize
        requires { Ordered self × (i < self.hi) }
        ensures { Skips self (i + 1) result }
    {
        let j = i + 1;
        if j == self.gap { self.resume } else { j }
    }
}
