// The ranges of a row's sets, one after another.
ghost use Rattle.std.specs.Prelude.{◌+◌, ◌*◌, ◌<◌, ◌≤◌, length};
ghost use Rattle.phrase.specs.Phrase.{join_of, Next};
ghost use Rattle.reach.specs.Reach.{InWords, InSets, number_of, FirstBit};

use crate::places::has;
use phrase::Range;

// The first number at or after one that is in the set.
fn bit_next(set: u64, from: usize) -> Option<usize>
    ensures { FirstBit set from result }
{
    if set == 0 {
        return None;
    }
    (from..64).find(|&i| has(set, i))
}

// The first range with words, by start and end, at or after an end from a start.
// Kept: n beside the slice, as in `set_next`, and the starts counted, since only the first of them has an end to begin at.
fn words_next(sets: &[u64], n: usize, start: usize, end: usize) -> Option<Range>
    requires { (n ≤ length sets.now) × (n ≤ 64) × (end ≤ 64) }
    ensures { Next number_of (InWords n sets.now) (start * 65 + end) (join_of result) }
{
    let mut from = end.saturating_sub(1);
    for s in start..n {
        if let Some(i) = bit_next(sets[s], from) {
            return Some(Range { from: s, to: i + 1 });
        }
        from = 0;
    }
    None
}

// The first range, by start and end, whose number is at or after one.
// Kept: n beside the slice, since number n of it is no set: it says whether the empty range is there (InSets in specs/Reach.antt).
pub fn set_next(sets: &[u64], n: usize, from: usize) -> Option<Range>
    requires { (n < length sets.now) × (n ≤ 64) }
    ensures { Next number_of (InSets n sets.now) from (join_of result) }
{
    if from == 0 && sets[n] == 1 {
        return Some(Range::NONE);
    }
    words_next(sets, n, from / 65, from % 65)
}
