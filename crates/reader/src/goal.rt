// The goal: the start category with the range of the whole sentence, looked for among the items.
ghost use Rattle.std.specs.Prelude.{◌≡◌, ◌≤◌, Ok};
ghost use Rattle.meaning.specs.Table.{byte};
ghost use Rattle.store.specs.Set.{Sorted};
ghost use Rattle.reader.specs.Answers.{code_of, place_of, count_of, goal_key, Judged};

use crate::answer::Reading;
use fields::byte_at;
use rules::Table;

// The goal's key.
fn goal_key(start: u16, n: usize) -> u64
    requires { (start ≤ 64) × (n ≤ 64) }
    ensures { result ≡ goal_key start n }
{
    (u64::from(start) * (1 << 14) + n as u64) * (1 << 28)
}

// Yes with the goal's place, or no.
pub(crate) fn yes_or_no(table: Table, n: usize, known: &[u64]) -> Reading
    requires { (n ≤ 64) × Sorted known.now }
    ensures { Judged (goal_key (byte table.entry.bytes.now 6) n) known.now (code_of (Ok result)) (place_of (Ok result)) (count_of (Ok result)) }
{
    let key = goal_key(byte_at(table.bytes, 6), n);
    let count = known.len();
    match store::place_of(known, key) {
        Some(place) => Reading::Yes { place, count },
        None => Reading::No { count },
    }
}
