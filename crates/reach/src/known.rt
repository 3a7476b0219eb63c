// Packed items entered into sets of ends by category and start.
ghost use Rattle.std.specs.Prelude.{◌≡◌, ◌<◌, ◌≤◌, length};
ghost use mathlib.Core.List.{Memᴰ};
ghost use Rattle.reach.specs.Mirror.{IsFirst, Enters, Marks, Entered, Room};

use crate::places::{both, only};

// The category and the first range of a packed item.
#[derive(Clone, Copy)]
struct First {
    category: usize,
    from: usize,
    to: usize,
}

// A bit of one of the sets.
#[derive(Clone, Copy)]
struct Spot {
    number: usize,
    bit: usize,
}

// What a code has first.
// Kept: the code is taken apart here, as in hint's `parts_meet`: each takes out only the digits that it needs, here three.
fn first_of(c: u64) -> First
    ensures { IsFirst c result }
{
    let k5 = c / 2048;
    let k4 = k5 / 128;
    let k3 = k4 / 128;
    let k2 = k3 / 128;
    let k1 = k2 / 128;
    let k0 = k1 / 128;
    First {
        category: (k0 / 128) as usize,
        from: (k0 % 128) as usize,
        to: (k1 % 128) as usize,
    }
}

// Where a code is entered.
fn spot_of(c: u64) -> Spot
    requires { Enters c }
    ensures { Marks c result.number result.bit × (result.number < 4160) × (result.bit < 64) }
{
    let x = first_of(c);
    if x.to == 0 {
        return Spot {
            number: 0,
            bit: x.category - 1,
        };
    }
    Spot {
        number: x.category * 64 + x.from,
        bit: x.to - 1,
    }
}

// Enters one code.
fn mark(ends: &mut [u64], c: u64)
    requires { Enters c × (4160 ≤ length ends.old) }
    ensures { Entered (λ d. d ≡ c) ends.old ends.new }
{
    let spot = spot_of(c);
    ends[spot.number] = both(ends[spot.number], only(spot.bit));
}

// Enters codes.
pub fn enter_all(codes: &[u64], ends: &mut [u64])
    requires { Room codes.now ends.old }
    ensures { Entered (λ c. Memᴰ c codes.now) ends.old ends.new }
{
    for c in codes {
        mark(ends, *c);
    }
}
