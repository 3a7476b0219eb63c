// The codes that are as asked: whether one is, and where in the order of codes they can be.
ghost use Rattle.std.specs.Prelude.{◌≡◌, ◌+◌, ◌<◌, ◌^◌};
ghost use Rattle.meaning.specs.Range.{Range, none, at};
ghost use Rattle.phrase.specs.Phrase.{Decides};
ghost use Rattle.store.specs.Code.{unpacked, known_of};
ghost use Rattle.hint.specs.Hint.{As, PartMeets, Meets, Reaches};
ghost use Rattle.hint.specs.State.{PartsMeet, StartAsked};

use crate::{Place, Reach, Want, Wants};

// How many codes there are of one category, of one start of its first part, of one end of it.
const OF_CATEGORY: u64 = 1 << 53;

const OF_START: u64 = 1 << 46;

const OF_END: u64 = 1 << 39;

// The digits of a code are below this, and so is each place that a code names.
const DIGITS: usize = 128;

// Whether a number is as asked.
fn is_as(asked: Place, n: u64) -> bool
    ensures { Decides (As asked n) result }
{
    match asked {
        Place::Any => true,
        Place::At(e) => n == e as u64,
        Place::Nowhere => false,
    }
}

// Whether a part is the empty one.
fn is_empty(from: u64, to: u64) -> bool
    ensures { Decides (◌≡◌ {A = Range} (record { from = from; to = to }) none) result }
{
    from == 0 && to == 0
}

// Whether a part is empty, or starts and ends as asked.
fn part_meets(w: Want, from: u64, to: u64) -> bool
    ensures { Decides (PartMeets w (record { from = from; to = to })) result }
{
    is_empty(from, to) || is_as(w.from, from) && is_as(w.to, to)
}

// Whether the three parts of a key are as asked.
// Kept: the key is taken apart here, as in reach's `first_of` and search's `unpack`: each takes out only the digits that it needs, and this runs
// for each code and ends at the first part that is not as asked.
fn parts_meet(w: Wants, key: u64) -> bool
    ensures { Decides (PartsMeet w (at (unpacked key))) result }
{
    let k4 = key / 128;
    let k3 = k4 / 128;
    let k2 = k3 / 128;
    let k1 = k2 / 128;
    let k0 = k1 / 128;
    part_meets(w.two, k2 % 128, k3 % 128)
        && part_meets(w.three, k4 % 128, key % 128)
        && part_meets(w.one, k0 % 128, k1 % 128)
}

// Whether a code is as asked.
pub fn meets(w: Wants, code: u64) -> bool
    ensures { Decides (Meets w (known_of code)) result }
{
    let height = code % 2048;
    w.low <= height && height <= w.high && parts_meet(w, code / 2048)
}

// One part of the codes: so many, from low on.
fn single(low: u64, count: u64) -> Reach
    requires { low + count < 2 ^ 64 }
    ensures { result ≡ record { low = low; high = low + count; low2 = low + count; high2 = low + count } }
{
    let end = low + count;
    Reach {
        low,
        high: end,
        low2: end,
        high2: end,
    }
}

// The codes of a category whose first part is empty, from low on, and so many more, from low2 on.
fn double(low: u64, low2: u64, count: u64) -> Reach
    requires { (low + 2 ^ 39 < 2 ^ 64) × (low2 + count < 2 ^ 64) }
    ensures { result ≡ record { low = low; high = low + 2 ^ 39; low2 = low2; high2 = low2 + count } }
{
    Reach {
        low,
        high: low + OF_END,
        low2,
        high2: low2 + count,
    }
}

// Where the codes of a category can be that are as asked, where their first part is asked for at a start.
fn reach_at(category: u16, w: Wants, from: usize) -> Reach
    requires { (category < 128) × StartAsked w from }
    ensures { Reaches category w result }
{
    let low = u64::from(category) * OF_CATEGORY;
    let start = low + from as u64 * OF_START;
    match w.one.to {
        Place::At(to) if to < DIGITS => double(low, start + to as u64 * OF_END, OF_END),
        _ => double(low, start, OF_START),
    }
}

// Where the codes of a category can be that are as asked: those whose first part is empty, and those where it stands as asked.
pub fn reach_of(category: u16, w: Wants) -> Reach
    requires { category < 128 }
    ensures { Reaches category w result }
{
    let first = u64::from(category) * OF_CATEGORY;
    match w.one.from {
        Place::Any => single(first, OF_CATEGORY),
        Place::At(0) => single(first, OF_START),
        Place::At(from) if from < DIGITS => reach_at(category, w, from),
        _ => single(first, OF_END),
    }
}
