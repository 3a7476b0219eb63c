// The search: level by level all items that can be made, as packed items in chart order.
#![tactic(auto)]

mod shapes;
mod spots;
mod task;
mod trying;

ghost use Rattle.std.specs.Prelude.{◌+◌, ◌≤◌, length};
ghost use Rattle.search.specs.Level.{Filled};
ghost use Rattle.search.specs.Search.{Level, Found};
ghost use Rattle.search.specs.Keys.{KeyMade, KeyGiven, Asked};

use crate::shapes::has_shape;
use crate::task::Task;
use crate::trying::blank_item;
use rules::{Rule, Table, first_rule, rule_count, rule_end};
pub use spots::{Spots, spots_of};
pub use trying::{none_of, spots_for, top, unpack, with};

// One level: what all rules give from the known items, of which the tallest has height h.
// Kept: the table and the words side by side, here and in the calls above, as `KeyMade`, `Choosing` and `Read`, whose meaning stays, have them.
fn level<'a>(
    table: Table<'a>,
    words: &'a [u16],
    known: &'a [u64],
    fresh: &mut [u64],
    h: u16,
) -> Option<usize>
    requires { Asked table.bytes.now words.now known.now h }
    ensures { Filled known.now (h + 1) (Level (KeyGiven table.entry.bytes.now words.now) known.now h) fresh.old 0 fresh.new result }
{
    let table = table.bytes;
    let mut at = first_rule(table);
    let mut m = 0;
    for i in 0..rule_count(table) {
        let rule = Rule { table, at };
        if !has_shape(rule, i) {
            let task = Task {
                rule,
                words,
                known,
                goal: blank_item(h + 1),
            };
            m = task.combine(fresh, m)?;
        }
        at = rule_end(table, at);
    }
    Some(m)
}

// All items that can be made, in chart order, in the first of known; none where there are more than there is room for.
// Kept: the room stands beside known, since `Found`, whose meaning stays, says what stands in known at each room.
pub fn search(table: Table, words: &[u16], known: &mut [u64], room: usize) -> Option<usize>
    requires { (length words.now ≤ 64) × (room ≤ 2000) × (room ≤ length known.old) }
    ensures { Found (KeyMade table.entry.bytes.now words.now) room known.new result }
{
    let mut fresh = [0u64; 2000];
    let mut k = 0;
    let mut h = 0;
    // Kept: it ends where a level adds nothing, and no count says when.
    loop {
        let m = level(table, words, &known[..k], &mut fresh[..room - k], h)?;
        if m == 0 {
            return Some(k);
        }
        store::merge(&mut known[..k + m], k, &fresh[..m]);
        k += m;
        h += 1;
    }
}
