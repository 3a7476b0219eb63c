// Walking the rules of a table that is accepted, without checking again.
ghost use Rattle.std.specs.Prelude.{◌≡◌, ◌≤◌, length, IfSome};
ghost use Rattle.meaning.specs.Table.{number};
ghost use Rattle.meaning.specs.Decode.{rule_end, first_rule};
ghost use Rattle.rules.specs.Walk.{Finds};
ghost use Rattle.rules.specs.Found.{found_at};

use crate::rule::{Row, Rule, Table};
use fields::{byte_at, number_at};

// How many rules the table has.
pub fn rule_count(table: &[u8]) -> usize
    ensures { result ≡ number table.now 7 }
{
    usize::from(number_at(table, 7))
}

// Where the first rule starts: after the dimensions.
#[tactic(auto, using(crate::proofs::Walks::places))]
pub fn first_rule(table: &[u8]) -> usize
    ensures { result ≡ first_rule table.now }
{
    9 + usize::from(byte_at(table, 5))
}

// Where the rule at a place ends.
// Kept: the four loops over the rules (`find_rule`, `order_rules` and two in search) go on by it: an iterator of our own would have to say by its
// ghost members what `place_of` (specs/Walk.antt) says, and each loop would need its number and its invariant besides, so it is no plainer.
#[tactic(auto, using(crate::proofs::Walks::places))]
pub fn rule_end(table: &[u8], rule: usize) -> usize
    requires { rule_end table.now rule ≤ length table.now }
    ensures { result ≡ rule_end table.now rule }
{
    let rows = byte_at(table, 8 + usize::from(byte_at(table, rule + 2)));
    let mut at = rule + 4 + usize::from(byte_at(table, rule + 3));
    for _ in 0..rows {
        at = Row { table, at }.end();
    }
    at
}

// The rule of an accepted table that has a function number.
pub fn find_rule<'a>(table: Table<'a>, f: u16) -> Option<Rule<'a>>
    ensures found { Finds table.entry.bytes.now f (found_at result) }
    ensures of_table { IfSome result (λ r. r.table ≡ table.entry.bytes) }
{
    let mut at = first_rule(table.bytes);
    for _ in 0..rule_count(table.bytes) {
        let rule = Rule {
            table: table.bytes,
            at,
        };
        if rule.function() == f {
            return Some(rule);
        }
        at = rule_end(table.bytes, at);
    }
    None
}
