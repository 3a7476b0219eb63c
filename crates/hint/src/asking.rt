// What the daughters that are chosen, and the item that is wanted, ask of a daughter: heights, and where its parts must stand.
ghost use Rattle.std.specs.Prelude.{◌≡◌, true, ◌≤◌};
ghost use Rattle.hint.specs.Hint.{seat, Partial, Asks};
ghost use Rattle.hint.specs.State.{Low, LeastAsked};

use crate::order::{is_chosen, seat};
use crate::steps::Asking;
use crate::{Want, Wants};
use phrase::{Daughters, Item};
use rules::Rule;

// Whether daughter j is chosen and lower than the greatest height; daughter k, and one that is not there, do not matter.
fn is_low(d: Daughters, k: usize, high: u64, j: usize) -> bool
    ensures { result ≡ true → Low d k high j }
{
    j == k || d.count <= j || is_chosen(d, j) && u64::from(seat(d, j).height) < high
}

// The least height of daughter k: the greatest, where all others are chosen and none has it; else there is none.
fn least(d: Daughters, k: usize, high: u64) -> u64
    requires { d.count ≤ 3 }
    ensures { LeastAsked d k high result }
{
    if (0..3).all(|j| is_low(d, k, high, j)) {
        high
    } else {
        0
    }
}

// What is asked of daughter k, from 0, by the daughters that are chosen and the item that is wanted; its category is 0 where any will do.
pub fn wants_of(rule: Rule, words: &[u16], d: Daughters, goal: Item, k: usize) -> Wants
    requires { Partial d × (1 ≤ goal.height) }
    ensures { Asks rule.entry.table.now words.now rule.entry.at d goal k result }
{
    let high = u64::from(goal.height) - 1;
    let mut w = Wants {
        low: least(d, k, high),
        high,
        one: Want::NOTHING,
        two: Want::NOTHING,
        three: Want::NOTHING,
    };
    let asking = Asking {
        words,
        chosen: d,
        turn: k,
    };
    for i in 0..3 {
        w = asking.ask_row(rule, i, goal, w);
    }
    w
}
