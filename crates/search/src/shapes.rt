// Which rules are equal but for their function numbers, and so give the same items.
ghost use Rattle.std.specs.Prelude.{◌≡◌, ◌≤◌};
ghost use Rattle.meaning.specs.Table.{number};
ghost use Rattle.phrase.specs.Phrase.{Decides};
ghost use Rattle.search.specs.Likeness.{Like, LikeBefore};

use fields::byte_at;
use rules::{Rule, first_rule, rule_end};

// Whether two rules of a table are equal but for their function numbers.
fn same_shape(a: Rule, b: Rule) -> bool
    requires { b.table.now ≡ a.table.now }
    ensures { Decides (Like a.entry.table.now a.entry.at b.entry.at) result }
{
    // Kept: `.all(..)` was tried; its closure's sums need bounds that follow from the rule by lemmas alone, and that goal did not close.
    for k in 2..rule_end(a.table, a.at) - a.at {
        if byte_at(a.table, a.at + k) != byte_at(b.table, b.at + k) {
            return false;
        }
    }
    true
}

// Whether one of the first n rules is equal to a rule but for the function number.
pub(crate) fn has_shape(rule: Rule, n: usize) -> bool
    requires { n ≤ number rule.table.now 7 }
    ensures { Decides (LikeBefore rule.entry.table.now rule.entry.at n) result }
{
    let table = rule.table;
    let mut at = first_rule(table);
    for _ in 0..n {
        if same_shape(Rule { table, at }, rule) {
            return true;
        }
        at = rule_end(table, at);
    }
    false
}
