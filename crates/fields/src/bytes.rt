// Numbers in bytes: what stands at a place, and whether a field is cut by the end.
ghost use Rattle.std.specs.Prelude.{◌≡◌, ◌+◌, ◌<◌, length, ltb};
ghost use Rattle.meaning.specs.Table as spec;

// Whether a number lies outside its limits.
#[tactic(auto, unfolding(meaning::specs::Table::outside))]
pub fn outside(low: u16, high: u16, x: u16) -> bool
    ensures { result ≡ spec.outside low high x }
{
    x < low || high < x
}

// The byte at a place, 0 past the table's end.
// Kept: 0 there, here and in `number_at`, as `byte` and `number` of crate meaning have it.
pub fn byte_at(table: &[u8], at: usize) -> u16
    ensures { (result ≡ spec.byte table.now at) × (result < 256) }
{
    table.get(at).map_or(0, |x| u16::from(*x))
}

// The two bytes at a place as a number, the low byte first; bytes past the end count as 0.
#[tactic(auto, unfolding(meaning::specs::Table::number))]
pub fn number_at(table: &[u8], at: usize) -> u16
    ensures { result ≡ spec.number table.now at }
{
    if at < table.len() {
        byte_at(table, at) + 256 * byte_at(table, at + 1)
    } else {
        0
    }
}

// Whether the table's end cuts a field of n bytes.
pub fn cut(table: &[u8], at: usize, n: usize) -> bool
    ensures { result ≡ ltb (length table.now) (at + n) }
{
    table.len() < at || table.len() - at < n
}
