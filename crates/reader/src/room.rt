// The room: how many records the caller allows and the chart slice holds.
ghost use Rattle.std.specs.Prelude.{◌≡◌, ◌/◌, min};
ghost use Rattle.meaning.specs.Reading.{allowed};

// What is allowed: 0 means 2,000, and more than that is taken as that.
fn allowed_of(allowance: usize) -> usize
    ensures { result ≡ allowed allowance }
{
    if allowance == 0 {
        return 2000;
    }
    allowance.min(2000)
}

// The room in a slice of so many numbers.
pub(crate) fn room_of(allowance: usize, length: usize) -> usize
    ensures { result ≡ min (allowed allowance) (length / 12) }
{
    allowed_of(allowance).min(length / 12)
}
