// The chosen function and daughters of a known item.
#![tactic(auto)]

mod looking;
mod quest;
mod walk;

ghost use Rattle.chosen.specs.Chosen.{Choosing, Chooses};

use fields::number_at;
use rules::Table;
use search::unpack;
use walk::walk;

// The number of the chosen function and the places of its daughters, 0 where the rule has no such daughter.
// Kept: three places, as the chart's record has them; document 01 has 0 in one that is unused.
#[derive(Clone, Copy)]
pub struct Choice {
    pub function: u16,
    pub one: u16,
    pub two: u16,
    pub three: u16,
}

// The chosen function and daughters of the item of a code.
pub fn choice_of(table: Table, words: &[u16], order: &[u16], known: &[u64], code: u64) -> Choice
    requires { Choosing table.bytes.now words.now order.now known.now code }
    ensures { Chooses table.entry.bytes.now words.now known.now code result }
{
    // There is a way: the item is one of those that can be made, as `Choosing` says.
    let way = walk(table, words, order, known, unpack(code)).unwrap();
    Choice {
        function: number_at(table.bytes, usize::from(order[way.function])),
        one: way.one as u16,
        two: way.two as u16,
        three: way.three as u16,
    }
}
